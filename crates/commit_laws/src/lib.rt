// A commit: it lowers no stop, and both of two channels show F where one of them commits alone. Theorems, and no function.
#![tactic(auto)]
