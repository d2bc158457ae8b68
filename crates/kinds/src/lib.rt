// Each kind's steps do on the machine between what the card's step does.
#![tactic(auto)]
