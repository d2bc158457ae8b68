// The steps of a block that leave it, and its opening and closing words, on the machine. Lemmas alone: see proofs/.
#![tactic(auto)]
