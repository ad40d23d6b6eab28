// Clauses 7.2.2, 7.4.2.6, 7.9.2.18 and 7.9.2.19, document 02, order 9: what a suspension keeps, and Resume brings back. Definitions and proofs, no code.
#![tactic(auto)]
