// What a cycle makes of the rank, and its list of cause codes: the statements in specs/ and their proofs in proofs/, about the
// definitions that the contracts cite.
#![tactic(auto)]
