// Document 01, "Limits" and its refusals, as C and Rust meet them: what is given and what is answered are numbers. Numbers come as 32 bits, and
// the crates behind take fewer. What does not fit is handed on as a number that they judge in the same way. Flags go out as 1 or 0. The
// modules tell what the writers and readers of CLTUs (clause 8), frames and control words (clause 6) answered.
#![tactic(auto)]

pub mod coding;
pub mod frames;
pub mod words;

ghost use Rattle.std.specs.Prelude.{◌≡◌};
ghost use Rattle.base.specs.Outcome.{number_of, count_of};
ghost use Rattle.base.specs.Refusals.{written_answer};
ghost use Rattle.pondreszi_numbers.specs.Numbers.{largest_octet, largest_pair, narrow, with_number};

use base::{LARGEST_CHANNEL, LARGEST_SPACECRAFT, Refusal};

// The largest number of two octets.
pub const LARGEST_PAIR: u32 = 65535;

// Sequence numbers.
pub const LARGEST_NUMBER: u32 = 255;

// An address beyond the limits: no frame or word has it.
pub const NO_SPACECRAFT: u16 = LARGEST_SPACECRAFT + 1;

pub const NO_CHANNEL: u8 = LARGEST_CHANNEL + 1;

// A value beyond the limits of W, buffers, FARM-B counter, K and Timeout_Type.
pub const BEYOND: u8 = 255;

// What a writer answered, by its number and the count of octets written.
pub fn told_written(written: Result<usize, Refusal>, count: &mut u64) -> u8
    ensures number { result ≡ number_of (written_answer written) }
    ensures counted { count.new ≡ count_of (written_answer written) }
{
    match written {
        Ok(n) => {
            *count = n as u64;
            0
        }
        Err(refusal) => {
            *count = 0;
            refusal.number()
        }
    }
}

// A number in eight bits; another where it does not fit.
pub fn narrow_u8(number: u32, otherwise: u8) -> u8
    ensures { result ≡ narrow largest_octet otherwise number }
{
    u8::try_from(number).unwrap_or(otherwise)
}

// The same in 16 bits. One function for both would need a trait that tells each type's largest number, for two lines.
pub fn narrow_u16(number: u32, otherwise: u16) -> u16
    ensures { result ≡ narrow largest_pair otherwise number }
{
    u16::try_from(number).unwrap_or(otherwise)
}

// Part of an address, or one beyond its limit where the number that goes with it is beyond its own.
pub fn with_number(number: u32, own: u32, beyond: u32) -> u32
    ensures { result ≡ with_number number own beyond }
{
    if number <= LARGEST_NUMBER {
        own
    } else {
        beyond
    }
}
