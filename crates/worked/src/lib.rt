// Worked cases: those that document 01 marks with P, its example kit, and runs in which the bounds of demand 3 are reached. Tables in specs/ and their theorems
// in proofs/, about the definitions that the contracts cite.
#![tactic(auto)]
