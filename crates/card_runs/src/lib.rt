// Runs of whole blocks, start to end, computed by the card's definition. Theorems only, in proofs/.
#![tactic(auto)]
