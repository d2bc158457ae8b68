// Document 01's starred lines: see proofs/Starred.antt.
#![tactic(auto)]
