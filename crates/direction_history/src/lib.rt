// When a watch stands and when cause 14 does, over every list of cycles: theorems, and no function.
#![tactic(auto)]
