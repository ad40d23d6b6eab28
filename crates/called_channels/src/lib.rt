// Document 02, order 8: demand 3 for each channel, isolation and the pool, of our own ends and of the functions that C and Rust call. Definitions and proofs, no code.
#![tactic(auto)]
