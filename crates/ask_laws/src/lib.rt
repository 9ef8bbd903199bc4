// What an ask tells, against the cycle straight behind the commit. Theorems, and no function.
#![tactic(auto)]
