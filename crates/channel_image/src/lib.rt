// A channel as data and the words of its state: which one they stand for. Theorems, and no function.
#![tactic(auto)]
