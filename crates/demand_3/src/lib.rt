// Demand 3, over every list of calls: the statement in specs/ and its proof in proofs/, about what the contracts of the calls ensure.
#![tactic(auto)]
