// Document 01, "The program": what is written for a line, a row of fields, and the header.
#![tactic(auto)]

ghost use Rattle.std.specs.Prelude.{◌≡◌, ◌∷◌, ◌++◌, ◌+◌, ◌≤◌, length};
ghost use Rattle.base.specs.Outcome.{answer, after};
ghost use Rattle.base.specs.Refusals.{written_answer};
ghost use Rattle.text.specs.Buffer.{standing};
ghost use Rattle.text.specs.Decimal.{decimal};
ghost use Rattle.text.specs.Answers.{written};
ghost use Rattle.program_rows.specs.declared.Output.TheVariants.{Row};
ghost use Rattle.program_rows.specs.Rows.{event_text, state_text, flag_text, header_text, text_of, row_room};

use base::Refusal;
use farm::{Event, State, Variables, event_number};
use text::{Buffer, TAB, ZERO};

// A row's octets at the most.
pub const ROW_ROOM: usize = 20;

// An octet's decimal text at the most.
const MOST_DIGITS: usize = 3;

// What is written for a line.
#[derive(Clone, Copy, Debug, PartialEq, Eq)]
pub enum Output {
    Nothing,
    Refused,
    Row(Event, Variables),
}

// Octets at the front of the output, where they fit.
#[tactic(auto, unfolding(text::specs::Answers::written))]
fn send(octets: &[u8], out: &mut [u8]) -> Result<usize, Refusal>
    ensures answer { written_answer result ≡ answer (written octets.now (length out.old)) }
    ensures memory { out.new ≡ after (written octets.now (length out.old)) out.old }
{
    if out.len() < octets.len() {
        return Err(Refusal::Room);
    }
    out[..octets.len()].copy_from_slice(octets);
    Ok(octets.len())
}

// Writes the header. A refusal changes nothing.
pub fn header(out: &mut [u8]) -> Result<usize, Refusal>
    ensures answer { written_answer result ≡ answer (written header_text (length out.old)) }
    ensures memory { out.new ≡ after (written header_text (length out.old)) out.old }
{
    send(b"event\tstate\tvr\tflags\tb\n", out)
}

// The number in an event's name.
#[tactic(auto, using(crate::proofs::Told::event_named))]
fn number_of(event: Event) -> u8
    ensures { event_text event ≡ 0x45 ∷ decimal result }
{
    event_number(event)
}

fn state_name(state: State) -> [u8; 2]
    ensures { result ≡ state_text state }
{
    match state {
        State::Open => *b"S1",
        State::Wait => *b"S2",
        State::Lockout => *b"S3",
    }
}

fn flag(on: bool) -> u8
    ensures { result ≡ flag_text on }
{
    ZERO + u8::from(on)
}

// A number behind what stands of a row. The library's write! could be refused, where the room shown here rules that out.
fn put_number(row: &mut Buffer<ROW_ROOM>, number: u8)
    requires { length (standing row.old) + 3 ≤ row_room }
    ensures text { standing row.new ≡ standing row.old ++ decimal number }
    ensures most { length (standing row.new) ≤ length (standing row.old) + 3 }
{
    let mut digits = [0; MOST_DIGITS];
    let Ok(count) = text::write(u64::from(number), &mut digits) else {
        unreachable!()
    };
    row.put(&digits[..count]);
}

// An event's row.
#[tactic(auto, unfolding(crate::specs::Rows::text_of))]
fn row_of(event: Event, v: Variables) -> Buffer<ROW_ROOM>
    ensures { standing result ≡ text_of (Row event v) }
{
    let mut row = Buffer::new();
    row.put(b"E");
    put_number(&mut row, number_of(event));
    row.put(b"\t");
    row.put(&state_name(v.state));
    row.put(b"\t");
    put_number(&mut row, v.vr);
    row.put(&[TAB, flag(v.lockout), flag(v.wait), flag(v.retransmit), TAB]);
    put_number(&mut row, v.counter);
    row.put(b"\n");
    row
}

impl Output {
    // Writes the octets of what is written for a line, 20 at the most. A refusal changes nothing.
    #[tactic(auto, unfolding(crate::specs::Rows::text_of, text::specs::Answers::written))]
    pub fn write(self, out: &mut [u8]) -> Result<usize, Refusal>
        ensures answer { written_answer result ≡ answer (written (text_of self) (length out.old)) }
        ensures memory { out.new ≡ after (written (text_of self) (length out.old)) out.old }
        ensures most { length (text_of self) ≤ row_room }
    {
        match self {
            Output::Nothing => Ok(0),
            Output::Refused => send(b"REFUSED\n", out),
            Output::Row(event, v) => send(row_of(event, v).as_slice(), out),
        }
    }
}
