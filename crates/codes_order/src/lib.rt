// The order of a cycle's cause codes, as W4 has it: that the list of a table has it, and no other list. Theorems, and no function.
#![tactic(auto)]
