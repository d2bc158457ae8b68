// The relation between the card and the A64 machine, on which demand 3 is proved.
#![tactic(auto)]
