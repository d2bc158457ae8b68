// The A64 machine is definitions and laws alone: see specs/ and proofs/.
#![tactic(auto)]
