// Clauses 6.2 and 6.4 to 6.8: the TC Transfer Frame, read; the crate `frame_writer` writes it.
#![tactic(auto)]

ghost use Rattle.std.specs.Prelude.{◌≡◌, ◌≤◌, true, length};
ghost use Rattle.base.specs.Refusals.{by_number, result_number};
ghost use Rattle.frame.specs.Frame.{total_of, data_field, is_command, command_held, header_refusal, content_refusal, refusal_of, kind_of};
ghost use Rattle.frame.specs.Answers.{reading_of, part_of};

use base::{Refusal, SMALLEST_FRAME};

// The type of a frame with what it carries: N(S), or the value of Set V(R).
#[derive(Clone, Copy)]
pub enum Kind {
    Ad(u8),
    Bd,
    Unlock,
    SetVr(u8),
}

// The fields of a valid frame: its kind, its address, the octets of the whole frame and of its data field.
#[derive(Clone, Copy)]
pub struct Fields {
    pub kind: Kind,
    pub spacecraft: u16,
    pub channel: u8,
    pub total: u16,
    pub field: u16,
}

// The octets of the whole frame, as its header says.
fn total(octets: &[u8]) -> u16
    requires { 8 ≤ length octets.now }
    ensures { result ≡ total_of octets.now }
{
    u16::from_be_bytes([octets[2] % 4, octets[3]]) + 1
}

// The n octets of a frame at the front of lent octets.
#[derive(Clone, Copy)]
struct Frame<'a> {
    octets: &'a [u8],
    n: usize,
    ghost within: { (8 ≤ n) × (n ≤ length octets.now) },
}

impl Frame<'_> {
    // Whether the data field is Unlock or Set V(R).
    fn is_command(self) -> bool
        ensures { result ≡ is_command (data_field self.entry.octets.now self.entry.n) }
    {
        match self.n {
            8 => self.octets[5] == 0x00,
            10 => self.octets[5] == 0x82 && self.octets[6] == 0x00,
            _ => false,
        }
    }

    // The checks of the header: 6, 7, 9.
    fn judge_header(self, spacecraft: u16, channel: u8) -> Result<(), Refusal>
        ensures { result ≡ by_number (header_refusal self.entry.octets.now self.entry.n spacecraft channel) tt }
    {
        let octets = self.octets;
        if !frame_header::valid(octets) {
            return Err(Refusal::Header);
        }
        let first = octets[0];
        if u16::from_be_bytes([first % 4, octets[1]]) != spacecraft || octets[2] / 4 != channel {
            return Err(Refusal::Address);
        }
        if first / 16 % 2 == 1 && !self.is_command() {
            return Err(Refusal::Command);
        }
        Ok(())
    }

    // The check of the FECF, 8, and then the header's.
    fn judge_content(self, spacecraft: u16, channel: u8) -> Result<(), Refusal>
        ensures { result ≡ by_number (content_refusal self.entry.octets.now self.entry.n spacecraft channel) tt }
    {
        let octets = self.octets;
        let end = self.n - 2;
        let check = fecf::fecf(&octets[..end]);
        if u16::from_be_bytes([octets[end], octets[end + 1]]) != check {
            return Err(Refusal::Check);
        }
        self.judge_header(spacecraft, channel)
    }

    // The kind, where the frame is valid.
    fn kind(self) -> Kind
        requires { (self.n ≡ total_of self.octets.now) × (command_held self.octets.now self.n ≡ true) }
        ensures { result ≡ kind_of self.entry.octets.now }
    {
        let octets = self.octets;
        let first = octets[0];
        if first / 16 % 2 == 1 {
            return if self.n == 8 {
                Kind::Unlock
            } else {
                Kind::SetVr(octets[7])
            };
        }
        if first / 32 % 2 == 1 {
            return Kind::Bd;
        }
        Kind::Ad(octets[4])
    }
}

// Whether lent octets are a frame for us: the checks of lengths, 4 and 5, then of the content.
pub fn judge(octets: &[u8], spacecraft: u16, channel: u8) -> Result<(), Refusal>
    ensures value { result ≡ by_number (refusal_of octets.now spacecraft channel) tt }
    ensures number { result_number result ≡ refusal_of octets.now spacecraft channel }
{
    if octets.len() < SMALLEST_FRAME {
        return Err(Refusal::Short);
    }
    let n = total(octets) as usize;
    if n < SMALLEST_FRAME || octets.len() < n {
        return Err(Refusal::Short);
    }
    if n + 6 < octets.len() {
        return Err(Refusal::Fill);
    }
    Frame { octets, n }.judge_content(spacecraft, channel)
}

// The refusal by its number, 0 where there is none.
pub fn refusal(octets: &[u8], spacecraft: u16, channel: u8) -> u8
    ensures { result ≡ refusal_of octets.now spacecraft channel }
{
    match judge(octets, spacecraft, channel) {
        Ok(()) => 0,
        Err(refusal) => refusal.number(),
    }
}

// The fields of lent octets, or the refusal. A frame that is not refused has our address.
pub fn read(octets: &[u8], spacecraft: u16, channel: u8) -> Result<Fields, Refusal>
    ensures value { result ≡ reading_of octets.now spacecraft channel }
    ensures number { result_number result ≡ refusal_of octets.now spacecraft channel }
{
    judge(octets, spacecraft, channel)?;
    let total = total(octets);
    let frame = Frame {
        octets,
        n: total as usize,
    };
    Ok(Fields {
        kind: frame.kind(),
        spacecraft,
        channel,
        total,
        field: total - 7,
    })
}

// The data field, as a part of the lent frame; empty after a refusal.
pub fn data_field(octets: &[u8], spacecraft: u16, channel: u8) -> &[u8]
    ensures { result.now ≡ part_of octets.now spacecraft channel }
{
    if judge(octets, spacecraft, channel).is_err() {
        return &octets[..0];
    }
    let end = total(octets) as usize - 2;
    &octets[5..end]
}
