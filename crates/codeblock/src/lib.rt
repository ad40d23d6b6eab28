// Clauses 8.2, 8.5 and 8.8: the BCH codeblock: its modes and its judgement. No function: crate encoded_data has them.
#![tactic(auto)]

// Clause 8.8: whether a single wrong bit of a codeblock is corrected, or only detected.
#[derive(Clone, Copy)]
pub enum Mode {
    Detecting,
    Correcting,
}

// A received codeblock that is good: its information, and how many of its bits were corrected (at most one). A bad one is None.
#[derive(Clone, Copy)]
pub struct Judged {
    pub information: [u8; 7],
    pub corrected: u8,
}
