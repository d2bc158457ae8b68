// Demand 3 by an example: its premises met, and one block computed on both sides.
#![tactic(auto)]
