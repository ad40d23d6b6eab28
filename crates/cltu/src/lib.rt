// Clauses 8.3, 8.6 and 8.7: the CLTU, written from a frame, and read.
#![tactic(auto)]

pub mod reader;
pub mod writer;
