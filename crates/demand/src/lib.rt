// Demand 3: the premises for a run, the claim, and what an end by the table gives the next block. The claim is proved in crate simulation.
#![tactic(auto)]
