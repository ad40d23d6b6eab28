// Document 01, "The program": what a line says.
#![tactic(auto)]

ghost use Rattle.std.specs.Prelude.{◌≡◌, [], ◌∷◌};
ghost use Rattle.program_lines.specs.Line.{number_of, by_fields, line_of};

use text::first_field;

// Document 01: a line over 63 octets is refused.
const LONGEST_LINE: usize = 63;

// What a line says.
#[derive(Clone, Copy, Debug, PartialEq, Eq)]
pub enum Line {
    Set(u8, u8, u8),
    Ad(u8),
    Bd,
    Unlock,
    SetVr(u8),
    Bad,
    Free,
    Malformed,
}

// The number of an octet that a field is.
fn octet(field: &[u8]) -> Option<u8>
    ensures { result ≡ number_of field.now }
{
    let number = text::number(field, 255)?;
    u8::try_from(number).ok()
}

// One field.
#[tactic(auto, using(crate::proofs::Words::same_reads), unfolding(crate::specs::Line::by_fields))]
fn one(word: &[u8]) -> Line
    ensures { result ≡ by_fields (word.now ∷ []) }
{
    match word {
        b"BD" => Line::Bd,
        b"UNLOCK" => Line::Unlock,
        b"BAD" => Line::Bad,
        b"FREE" => Line::Free,
        _ => Line::Malformed,
    }
}

// Two fields.
#[tactic(auto, using(crate::proofs::Words::same_reads), unfolding(crate::specs::Line::by_fields))]
fn two(word: &[u8], number: &[u8]) -> Line
    ensures { result ≡ by_fields (word.now ∷ number.now ∷ []) }
{
    match (word, octet(number)) {
        (b"AD", Some(number)) => Line::Ad(number),
        (b"SETVR", Some(value)) => Line::SetVr(value),
        _ => Line::Malformed,
    }
}

// Four fields.
#[tactic(auto, using(crate::proofs::Words::same_reads), unfolding(crate::specs::Line::by_fields))]
fn four(word: &[u8], window: &[u8], vr: &[u8], buffers: &[u8]) -> Line
    ensures { result ≡ by_fields (word.now ∷ window.now ∷ vr.now ∷ buffers.now ∷ []) }
{
    match (word, octet(window), octet(vr), octet(buffers)) {
        (b"SET", Some(window), Some(vr), Some(buffers)) => Line::Set(window, vr, buffers),
        _ => Line::Malformed,
    }
}

impl Line {
    // A line without its newline.
    #[tactic(auto, using(crate::proofs::Words::line_short, crate::proofs::Words::line_long, crate::proofs::Words::line_many), unfolding(crate::specs::Line::by_fields))]
    pub fn read(line: &[u8]) -> Line
        ensures { result ≡ line_of line.now }
    {
        if LONGEST_LINE < line.len() {
            return Line::Malformed;
        }
        let (word, rest) = first_field(line);
        let Some(rest) = rest else {
            return one(word);
        };
        let (window, rest) = first_field(rest);
        let Some(rest) = rest else {
            return two(word, window);
        };
        let (vr, rest) = first_field(rest);
        let Some(rest) = rest else {
            return Line::Malformed;
        };
        match first_field(rest) {
            (buffers, None) => four(word, window, vr, buffers),
            _ => Line::Malformed,
        }
    }
}
