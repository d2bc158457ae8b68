// The loads and stores of a block on the machine. Lemmas alone: see proofs/.
#![tactic(auto)]
