// What translation answers and leaves, for every record and every lent slice, and what is promised of it. Definitions and theorems only.
#![tactic(auto)]
