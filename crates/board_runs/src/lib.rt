// Demand 3 of the library's calls: the statement in specs/ and its proof in proofs/, about what the contracts of the exported functions ensure.
#![tactic(auto)]
