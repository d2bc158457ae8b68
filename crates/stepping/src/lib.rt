// Lists of steps, one behind another: definitions and theorems, no function.
#![tactic(auto)]
