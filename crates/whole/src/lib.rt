// A block emitted and finished has the words and the sites of its definition: theorems, no function.
#![tactic(auto)]
