// A block's lines and the words that they stand for run alike. Lemmas alone: see proofs/.
#![tactic(auto)]
