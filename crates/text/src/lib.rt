// Texts: fields parted by tabs, and decimal numbers (document 01, "The program").
#![tactic(auto)]

ghost use Rattle.std.specs.Prelude.{◌≡◌, ◌≤◌, ◌<◌, ◌∷◌, ◌++◌, length, drop};
ghost use Rattle.std.specs.Option.{option_copied};
ghost use Rattle.base.specs.Octets.{same as same-octets};
ghost use Rattle.base.specs.Outcome.{answer, after};
ghost use Rattle.base.specs.Refusals.{written_answer};
ghost use Rattle.text.specs.Decimal.{decimal, value_within, number_within};
ghost use Rattle.text.specs.Cut.{cut_of};
ghost use Rattle.text.specs.Fields.{fields_of, fields_behind};
ghost use Rattle.text.specs.Answers.{written};

mod buffer;

use base::Refusal;
pub use buffer::Buffer;

pub const TAB: u8 = b'\t';

pub const NEWLINE: u8 = b'\n';

pub const ZERO: u8 = b'0';

pub const NINE: u8 = b'9';

// Whether two texts are the same.
pub fn same(a: &[u8], b: &[u8]) -> bool
    ensures { result ≡ same-octets a.now b.now }
{
    a == b
}

// The place of the first tab, or the length.
pub fn cut(text: &[u8]) -> usize
    ensures { result ≡ cut_of text.now }
{
    text.iter()
        .position(|octet| *octet == TAB)
        .unwrap_or(text.len())
}

// The first field, and what follows its tab where there is one.
pub fn first_field(text: &[u8]) -> (&[u8], Option<&[u8]>)
    ensures { fields_of text.now ≡ result.0.now ∷ fields_behind (option_copied result.1) }
{
    let place = cut(text);
    if place < text.len() {
        (&text[..place], Some(&text[place + 1..]))
    } else {
        (text, None)
    }
}

// The value of digits, as far as it stays within a limit. The library's parse takes a plus sign and leading zeros, which document 01
// refuses.
fn value(text: &[u8], limit: u64) -> Option<u64>
    ensures { result ≡ value_within limit 0 text.now }
{
    let mut value: u64 = 0;
    for octet in text {
        if !octet.is_ascii_digit() {
            return None;
        }
        value = value
            .checked_mul(10)?
            .checked_add(u64::from(*octet - ZERO))?;
        if limit < value {
            return None;
        }
    }
    Some(value)
}

// The number within a limit that a text is.
#[tactic(auto, using(crate::proofs::Canonical::number_empty, crate::proofs::Canonical::number_zero, crate::proofs::Canonical::number_value))]
pub fn number(text: &[u8], limit: u64) -> Option<u64>
    ensures { result ≡ number_within limit text.now }
{
    match text {
        [] | [ZERO, _, ..] => None,
        _ => value(text, limit),
    }
}

// How many digits a number has.
fn digits(n: u64) -> usize
    ensures { result ≡ length (decimal n) }
{
    1 + n.checked_ilog10().unwrap_or(0) as usize
}

// The digits, the last one first, over an output that is as long. The library prints a number into a writer that may refuse it; this
// output is lent memory that has the room.
fn spell(n: u64, out: &mut [u8])
    requires { length out.old ≡ length (decimal n) }
    ensures { out.new ≡ decimal n }
{
    let mut rest = n;
    for place in (0..out.len()).rev() {
        out[place] = ZERO + (rest % 10) as u8;
        rest /= 10;
    }
}

// Writes a number's decimal text at the front of the output. A refusal changes nothing.
#[tactic(auto, unfolding(crate::specs::Answers::written))]
pub fn write(n: u64, out: &mut [u8]) -> Result<usize, Refusal>
    ensures answer { written_answer result ≡ answer (written (decimal n) (length out.old)) }
    ensures memory { out.new ≡ after (written (decimal n) (length out.old)) out.old }
{
    let count = digits(n);
    if out.len() < count {
        return Err(Refusal::Room);
    }
    spell(n, &mut out[..count]);
    Ok(count)
}
