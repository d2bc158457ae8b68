// What holds of the code of every checked block, for the assembler: definitions and theorems, no function.
#![tactic(auto)]
