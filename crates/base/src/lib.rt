// Definitions and laws that every crate shares, document 01's limits by name, as document 02's order 7 amends them, and its refusals.
#![tactic(auto)]

ghost use Rattle.std.specs.Prelude.{◌≡◌};
ghost use Rattle.base.specs.Refusals.{refusal_number};

// A transfer frame with its FECF.
pub const SMALLEST_FRAME: usize = 8;

pub const LARGEST_FRAME: usize = 1024;

// Document 01, "Limits": what is lent to the CLTU reader.
pub const LARGEST_INPUT: usize = 4096;

// A unit (FDU), the data field of a frame.
pub const LARGEST_UNIT: usize = 1017;

// Document 01, "Limits": spacecraft and virtual channel.
pub const LARGEST_SPACECRAFT: u16 = 1023;

pub const LARGEST_CHANNEL: u8 = 63;

// The largest sender window K.
pub const LARGEST_K: u8 = 127;

// Document 01, "Refusals", by name. Numbers and places: specs/Refusals. The first three return a place.
#[derive(Clone, Copy, Debug, PartialEq, Eq)]
pub enum Refusal {
    NoStart(usize),
    NoBlock(usize),
    NoEnd(usize),
    Short,
    Fill,
    Header,
    Address,
    Check,
    Command,
    Length,
    Room,
    Setting,
    Release,
}

impl Refusal {
    // Its number.
    pub fn number(self) -> u8
        ensures { result ≡ refusal_number self }
    {
        match self {
            Refusal::NoStart(_) => 1,
            Refusal::NoBlock(_) => 2,
            Refusal::NoEnd(_) => 3,
            Refusal::Short => 4,
            Refusal::Fill => 5,
            Refusal::Header => 6,
            Refusal::Address => 7,
            Refusal::Check => 8,
            Refusal::Command => 9,
            Refusal::Length => 10,
            Refusal::Room => 11,
            Refusal::Setting => 12,
            Refusal::Release => 13,
        }
    }
}
