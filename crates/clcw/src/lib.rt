// Clause 6.3: the communications link control word (CLCW), built and read.
#![tactic(auto)]

ghost use Rattle.std.specs.Prelude.{◌≡◌, ◌≤◌, length};
ghost use Rattle.base.specs.Outcome.{answer, after};
ghost use Rattle.base.specs.Limits.{largest_channel};
ghost use Rattle.base.specs.Refusals.{result_number, written_answer};
ghost use Rattle.clcw.specs.Clcw.{clcw_of, writing, is_valid, word_of};
ghost use Rattle.clcw.specs.Answers.{received_of, reading_of, refusal_of};

use base::{LARGEST_CHANNEL, Refusal};

// Table 6-4: the FARM-B counter has two bits.
const LARGEST_COUNTER: u8 = 3;

// The fields of a control word that FOP-1 and FARM-1 give a meaning: channel, the three flags, the FARM-B counter (0 to 3) and
// the report value.
#[derive(Clone, Copy)]
pub struct Clcw {
    pub channel: u8,
    pub lockout: bool,
    pub wait: bool,
    pub retransmit: bool,
    pub counter: u8,
    pub report: u8,
}

// A control word as it was received, with the fields that are read and not judged.
#[derive(Clone, Copy)]
pub struct ReceivedWord {
    pub word: Clcw,
    pub status: u8,
    pub no_rf: bool,
    pub no_bit_lock: bool,
}

impl Clcw {
    // The three flags, each with its named bit in the third octet.
    pub const LOCKOUT: u8 = 0x20;

    pub const WAIT: u8 = 0x10;

    pub const RETRANSMIT: u8 = 0x08;

    // The four octets.
    fn octets(self) -> [u8; 4]
        requires { (self.channel ≤ largest_channel) × (self.counter ≤ 3) }
        ensures { result ≡ clcw_of self }
    {
        let lockout = u8::from(self.lockout) * Self::LOCKOUT;
        let wait = u8::from(self.wait) * Self::WAIT;
        let retransmit = u8::from(self.retransmit) * Self::RETRANSMIT;
        [
            0x01,
            self.channel * 4,
            lockout + wait + retransmit + self.counter * 2,
            self.report,
        ]
    }

    // Writes the word at the front of the output: the count of octets, 12 or 11. A refusal changes nothing.
    pub fn write(self, out: &mut [u8]) -> Result<usize, Refusal>
        ensures answer { written_answer result ≡ answer (writing self (length out.old)) }
        ensures memory { out.new ≡ after (writing self (length out.old)) out.old }
    {
        if LARGEST_CHANNEL < self.channel || LARGEST_COUNTER < self.counter {
            return Err(Refusal::Setting);
        }
        if out.len() < 4 {
            return Err(Refusal::Room);
        }
        out[..4].copy_from_slice(&self.octets());
        Ok(4)
    }

    // The word that four octets hold.
    fn word(octets: [u8; 4]) -> Clcw
        ensures { result ≡ word_of octets }
    {
        let flags = octets[2];
        Clcw {
            channel: octets[1] / 4,
            lockout: flags & Self::LOCKOUT != 0,
            wait: flags & Self::WAIT != 0,
            retransmit: flags & Self::RETRANSMIT != 0,
            counter: flags / 2 % 4,
            report: octets[3],
        }
    }

    // What lent octets are to a channel: a control word; none where it is an invalid one, which is no refusal; or 7 or 10.
    pub fn read(octets: &[u8], channel: u8) -> Result<Option<ReceivedWord>, Refusal>
        ensures value { result ≡ reading_of octets.now channel }
        ensures number { result_number result ≡ refusal_of octets.now channel }
    {
        let Ok(octets) = <[u8; 4]>::try_from(octets) else {
            return Err(Refusal::Length);
        };
        if !valid(octets) {
            return Ok(None);
        }
        if octets[1] / 4 != channel {
            return Err(Refusal::Address);
        }
        Ok(Some(all_fields(octets)))
    }
}

// Type, version, COP in effect and both spares are as they should be.
fn valid(octets: [u8; 4]) -> bool
    ensures { result ≡ is_valid octets }
{
    octets[0] / 32 == 0 && octets[0] % 4 == 1 && octets[1] % 4 == 0 && octets[2] % 2 == 0
}

// The word with the fields that are not judged.
fn all_fields(octets: [u8; 4]) -> ReceivedWord
    ensures { result ≡ received_of octets }
{
    ReceivedWord {
        word: Clcw::word(octets),
        status: octets[0] / 4 % 8,
        no_rf: octets[2] / 128 == 1,
        no_bit_lock: octets[2] / 64 % 2 == 1,
    }
}
