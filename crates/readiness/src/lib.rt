// The words of a checked block can be fetched, decoded and executed.
#![tactic(auto)]
