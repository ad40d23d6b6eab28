// Clauses 8.2 to 8.7: what damage on the way amounts to. It is stated in specs/ and proved in proofs/; there is no code.
#![tactic(auto)]
