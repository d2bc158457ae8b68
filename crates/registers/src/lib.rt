// The straight steps of a block on the machine: guest registers, fields, constants and instructions on temporaries. Lemmas alone: see proofs/.
#![tactic(auto)]
