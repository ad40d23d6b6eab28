// Document 01, "The session": our two ends as callers in C and Rust have them, and demand 3 of these. Definitions and proofs, no code.
#![tactic(auto)]
