// When n<nx is shown, over every list of calls: a theorem, and no function.
#![tactic(auto)]
