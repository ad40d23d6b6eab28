// The CLTU of a frame, written into lent output (clause 8.3).
ghost use Rattle.std.specs.Prelude.{◌≡◌, ◌+◌, ◌*◌, ◌/◌, ◌≤◌, ◌++◌, length};
ghost use Rattle.base.specs.Limits.{largest_frame};
ghost use Rattle.base.specs.Outcome.{answer, after};
ghost use Rattle.base.specs.Refusals.{written_answer};
ghost use Rattle.encoded_data.specs.EncodedData.{encoded};
ghost use Rattle.memory.specs.Placed.{placed};
ghost use Rattle.start_sequence.specs.StartSequence.{start_sequence};
ghost use Rattle.cltu.specs.Cltu.{codeblocks, information_for, tail_sequence, writing};

use base::{LARGEST_FRAME, Refusal, SMALLEST_FRAME};

// The information of the largest frame: its octets and the fill of the last codeblock.
const LARGEST_INFORMATION: usize = (LARGEST_FRAME + 6) / 7 * 7;

// Clause 8.3, Start Sequence and Tail Sequence.
const START: [u8; 2] = [0xEB, 0x90];

const TAIL: [u8; 8] = [0xC5, 0xC5, 0xC5, 0xC5, 0xC5, 0xC5, 0xC5, 0x79];

// Puts the information of a frame, so many octets, to the front of the lent memory: the frame with its fill, randomized.
fn put_information(frame: &[u8], count: usize, information: &mut [u8])
    requires { (length frame.now ≤ largest_frame) × (count ≡ 7 * codeblocks (length frame.now)) }
    ensures { information.new ≡ placed information.old 0 (information_for frame.now) }
{
    let mut filled = [0x55u8; LARGEST_INFORMATION];
    memory::put(&mut filled, 0, frame);
    randomizer::randomize(&filled[..count], information);
}

// Puts the CLTU of the information to the front of the output: start sequence, codeblocks up to a place, tail sequence.
fn put_cltu(information: &[u8], end: usize, out: &mut [u8])
    requires { (end ≡ 2 + 8 * (length information.now / 7)) × (end + 8 ≤ length out.old) }
    ensures { out.new ≡ placed out.old 0 (start_sequence ++ encoded (length information.now / 7) information.now ++ tail_sequence) }
{
    memory::put(out, 0, &START);
    encoded_data::writer::encode(information, &mut out[2..end]);
    memory::put(out, end, &TAIL);
}

// Writes the CLTU of a frame of SMALLEST_FRAME to LARGEST_FRAME octets: the count of octets written, or refusal 10 or 11. A refusal changes nothing.
pub fn write(frame: &[u8], out: &mut [u8]) -> Result<usize, Refusal>
    ensures answer { written_answer result ≡ answer (writing frame.now (length out.old)) }
    ensures memory { out.new ≡ after (writing frame.now (length out.old)) out.old }
{
    if !matches!(frame.len(), SMALLEST_FRAME..=LARGEST_FRAME) {
        return Err(Refusal::Length);
    }
    let blocks = (frame.len() + 6) / 7;
    let need = 2 + 8 * blocks + 8;
    if out.len() < need {
        return Err(Refusal::Room);
    }
    let count = 7 * blocks;
    let mut information = [0u8; LARGEST_INFORMATION];
    put_information(frame, count, &mut information);
    put_cltu(&information[..count], need - 8, out);
    Ok(need)
}
