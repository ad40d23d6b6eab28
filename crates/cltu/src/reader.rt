// A CLTU read out of lent input (clause 8.7, document 01).
ghost use Rattle.std.specs.Prelude.{◌≡◌, ◌+◌, ◌≤◌, length};
ghost use Rattle.base.specs.Limits.{largest_input};
ghost use Rattle.base.specs.Outcome.{answer, after};
ghost use Rattle.codeblock.specs.Codeblock.{judged};
ghost use Rattle.cltu.specs.Cltu.{reading_after, reading};
ghost use Rattle.cltu.specs.Answers.{read_answer};

use base::{LARGEST_INPUT, Refusal};
use codeblock::Mode;

// What a reading tells: the count of octets handed out, the bad codeblock's offset and the count of corrected codeblocks.
#[derive(Clone, Copy)]
pub struct CltuReading {
    pub count: usize,
    pub place: usize,
    pub corrected: usize,
}

// The information of as many codeblocks as the largest input has.
const LARGEST_INFORMATION: usize = LARGEST_INPUT / 8 * 7;

// Reads the codeblocks after a start sequence, judged in the mode; the rest of the input stands at an offset.
fn read_after(
    input: &[u8],
    mode: Mode,
    offset: usize,
    out: &mut [u8],
) -> Result<CltuReading, Refusal>
    requires { offset + length input.now ≤ largest_input }
    ensures answer { read_answer result ≡ answer (reading_after (judged mode) offset input.now (length out.old)) }
    ensures memory { out.new ≡ after (reading_after (judged mode) offset input.now (length out.old)) out.old }
{
    let mut information = [0u8; LARGEST_INFORMATION];
    let run = encoded_data::take_good(input, mode, &mut information);
    let (count, place) = (7 * run.blocks, offset + 8 * run.blocks);
    if input.len() / 8 <= run.blocks {
        return Err(Refusal::NoEnd(place));
    }
    if run.blocks == 0 {
        return Err(Refusal::NoBlock(offset));
    }
    if out.len() < count {
        return Err(Refusal::Room);
    }
    randomizer::randomize(&information[..count], out);
    Ok(CltuReading {
        count,
        place,
        corrected: run.corrected,
    })
}

// Reads the first CLTU of the input in the mode: 10, refusal 1, 2 or 3 with its place, or 11. A refusal changes nothing.
pub fn read(input: &[u8], mode: Mode, out: &mut [u8]) -> Result<CltuReading, Refusal>
    ensures answer { read_answer result ≡ answer (reading mode input.now (length out.old)) }
    ensures memory { out.new ≡ after (reading mode input.now (length out.old)) out.old }
{
    if LARGEST_INPUT < input.len() {
        return Err(Refusal::Length);
    }
    let first = start_sequence::find_start(input);
    if input.len() <= first {
        return Err(Refusal::NoStart(input.len()));
    }
    let offset = first + 2;
    read_after(&input[offset..], mode, offset, out)
}
