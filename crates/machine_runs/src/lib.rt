// Single steps, start to end, computed by the machine's definition. Theorems only, in proofs/.
#![tactic(auto)]
