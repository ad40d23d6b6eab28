// Document 02, order 11: every unit accounted for, over any sequence of events from a fresh sender. Definitions and proofs, no code.
#![tactic(auto)]
