// Demand 3, proved: the words of a checked block do on the machine what the card does.
#![tactic(auto)]
