// Document 02, order 8: demand 3 for each channel of a receiver of up to eight. Definitions and proofs, no code.
#![tactic(auto)]
