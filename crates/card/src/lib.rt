// The card: what a checked block does to registers, memory and counts. Definitions and theorems only, in specs/ and proofs/.
#![tactic(auto)]
