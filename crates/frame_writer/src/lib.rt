// Clauses 6.4 and 6.5: the TC Transfer Frame, written into lent output.
#![tactic(auto)]

ghost use Rattle.std.specs.Prelude.{◌≡◌, ◌+◌, ◌≤◌, [], ◌++◌, length, drop};
ghost use Rattle.base.specs.Flags.{bit_of};
ghost use Rattle.base.specs.Limits.{largest_unit, largest_spacecraft, largest_channel, largest_frame};
ghost use Rattle.base.specs.Outcome.{answer, after};
ghost use Rattle.base.specs.Refusals.{written_answer};
ghost use Rattle.frame.specs.declared.Kind.TheVariants.{Ad, Bd, Unlock, SetVr};
ghost use Rattle.frame_header.specs.Header.{header_of};
ghost use Rattle.frame.specs.Frame.{writing, raw_frame, raw_writing};

use base::{LARGEST_CHANNEL, LARGEST_SPACECRAFT, LARGEST_UNIT, Refusal};
use frame::Kind;

// What a header says beside the length (clause 6.2.2): the Bypass Flag, the Control Command Flag, the address and the sequence number.
#[derive(Clone, Copy)]
struct Header {
    bypass: bool,
    control: bool,
    spacecraft: u16,
    channel: u8,
    number: u8,
}

impl Header {
    // The five octets of the header of a frame of n octets.
    fn octets(self, n: u16) -> [u8; 5]
        requires { (self.spacecraft ≤ largest_spacecraft) × (self.channel ≤ largest_channel) × (8 ≤ n) × (n ≤ largest_frame) }
        ensures { result ≡ header_of (bit_of self.bypass) (bit_of self.control) self.spacecraft self.channel n self.number }
    {
        let spacecraft = self.spacecraft.to_be_bytes();
        let last = (n - 1).to_be_bytes();
        let flags = u8::from(self.bypass) * 0x20 + u8::from(self.control) * 0x10;
        [
            flags + spacecraft[0],
            spacecraft[1],
            self.channel * 4 + last[0],
            last[1],
            self.number,
        ]
    }

    // The whole frame at the front of the output, which has room for it.
    fn put(self, field: &[u8], out: &mut [u8])
        requires { (self.spacecraft ≤ largest_spacecraft) × (self.channel ≤ largest_channel) × (1 ≤ length field.now) × (length field.now ≤ largest_unit) × (length field.now + 7 ≤ length out.old) }
        ensures { out.new ≡ raw_frame (bit_of self.bypass) (bit_of self.control) self.number self.spacecraft self.channel field.now ++ drop (length field.now + 7) out.old }
    {
        let n = field.len();
        memory::put(out, 0, &self.octets((n + 7) as u16));
        memory::put(out, 5, field);
        let end = 5 + n;
        let check = fecf::fecf(&out[..end]);
        memory::put(out, end, &check.to_be_bytes());
    }

    // The checks in their order, then the frame.
    fn write(self, field: &[u8], out: &mut [u8]) -> Result<usize, Refusal>
        ensures answer { written_answer result ≡ answer (raw_writing (bit_of self.bypass) (bit_of self.control) self.number self.spacecraft self.channel field.now (length out.old)) }
        ensures memory { out.new ≡ after (raw_writing (bit_of self.bypass) (bit_of self.control) self.number self.spacecraft self.channel field.now (length out.old)) out.old }
    {
        let n = field.len();
        if n < 1 || LARGEST_UNIT < n {
            return Err(Refusal::Length);
        }
        if LARGEST_SPACECRAFT < self.spacecraft || LARGEST_CHANNEL < self.channel {
            return Err(Refusal::Setting);
        }
        if out.len() < n + 7 {
            return Err(Refusal::Room);
        }
        self.put(field, out);
        Ok(n + 7)
    }
}

// Writes a frame of a kind (table 6-3) at the front of the output: the count of octets, or 10, 12 or 11. `unit` is that of an AD or a BD frame. A
// refusal changes nothing.
pub fn write(
    spacecraft: u16,
    channel: u8,
    kind: Kind,
    unit: &[u8],
    out: &mut [u8],
) -> Result<usize, Refusal>
    ensures answer { written_answer result ≡ answer (writing spacecraft channel kind unit.now (length out.old)) }
    ensures memory { out.new ≡ after (writing spacecraft channel kind unit.now (length out.old)) out.old }
{
    let data = Header {
        bypass: false,
        control: false,
        spacecraft,
        channel,
        number: 0,
    };
    let command = Header {
        bypass: true,
        control: true,
        ..data
    };
    match kind {
        Kind::Ad(number) => Header { number, ..data }.write(unit, out),
        Kind::Bd => Header {
            bypass: true,
            ..data
        }
        .write(unit, out),
        Kind::Unlock => command.write(&[0x00], out),
        Kind::SetVr(value) => command.write(&[0x82, 0x00, value], out),
    }
}

// An AD frame: N(S) and a unit.
pub fn write_ad(
    spacecraft: u16,
    channel: u8,
    number: u8,
    unit: &[u8],
    out: &mut [u8],
) -> Result<usize, Refusal>
    ensures answer { written_answer result ≡ answer (writing spacecraft channel (Ad number) unit.now (length out.old)) }
    ensures memory { out.new ≡ after (writing spacecraft channel (Ad number) unit.now (length out.old)) out.old }
{
    write(spacecraft, channel, Kind::Ad(number), unit, out)
}

// A BD frame: a unit.
pub fn write_bd(spacecraft: u16, channel: u8, unit: &[u8], out: &mut [u8]) -> Result<usize, Refusal>
    ensures answer { written_answer result ≡ answer (writing spacecraft channel Bd unit.now (length out.old)) }
    ensures memory { out.new ≡ after (writing spacecraft channel Bd unit.now (length out.old)) out.old }
{
    write(spacecraft, channel, Kind::Bd, unit, out)
}

// A BC frame with the command Unlock.
pub fn write_unlock(spacecraft: u16, channel: u8, out: &mut [u8]) -> Result<usize, Refusal>
    ensures answer { written_answer result ≡ answer (writing spacecraft channel Unlock [] (length out.old)) }
    ensures memory { out.new ≡ after (writing spacecraft channel Unlock [] (length out.old)) out.old }
{
    write(spacecraft, channel, Kind::Unlock, b"", out)
}

// A BC frame with the command Set V(R).
pub fn write_set_vr(
    spacecraft: u16,
    channel: u8,
    value: u8,
    out: &mut [u8],
) -> Result<usize, Refusal>
    ensures answer { written_answer result ≡ answer (writing spacecraft channel (SetVr value) [] (length out.old)) }
    ensures memory { out.new ≡ after (writing spacecraft channel (SetVr value) [] (length out.old)) out.old }
{
    write(spacecraft, channel, Kind::SetVr(value), b"", out)
}
