// Clause 8.3, Encoded Data, and clause 8.7, state S3: the good codeblocks at the front of an input, taken one by one.
#![tactic(auto)]

pub mod block;
mod table;
pub mod writer;

ghost use Rattle.std.specs.Prelude.{◌≡◌, ◌*◌, ◌/◌, ◌≤◌, ◌++◌, length, drop};
ghost use Rattle.codeblock.specs.Codeblock.{judged};
ghost use Rattle.codeblock.specs.Table.{righted};
ghost use Rattle.encoded_data.specs.EncodedData.{good_run, information_in, corrected_in, whole_in};

use crate::block::invert;
use crate::table::Tables;
use codeblock::{Judged, Mode};

// The good codeblocks at the front of an input: how many, and how many of them were corrected.
#[derive(Clone, Copy)]
pub struct Run {
    pub blocks: usize,
    pub corrected: usize,
}

// Puts the information of a codeblock in the place of as many octets, the wrong bit inverted where there is one. All are read before any is put, so that
// nothing asks whether they overlap.
fn put_information(place: &mut [u8], information: &[u8], wrong: Option<u8>)
    requires { (length place.old ≡ 7) × (length information.now ≡ 7) }
    ensures { place.new ≡ righted wrong information.now }
{
    let mut seven = [0; 7];
    seven.copy_from_slice(information);
    place.copy_from_slice(&seven);
    if let Some(bit) = wrong {
        invert(place, bit);
    }
}

impl Tables<'_> {
    // Takes the good codeblocks at the front of the input, each judged once in the mode; their information to the front of the lent memory.
    fn take(self, input: &[u8], mode: Mode, information: &mut [u8]) -> Run
        requires { 7 * (length input.now / 8) ≤ length information.old }
        ensures run { (result.blocks ≡ good_run (judged mode) (length input.now / 8) input.now) × (result.corrected ≡ corrected_in (judged mode) result.blocks input.now) }
        ensures memory { information.new ≡ information_in (judged mode) result.blocks input.now ++ drop (length (information_in (judged mode) result.blocks input.now)) information.old }
    {
        let mut corrected = 0;
        for (n, block) in input.chunks_exact(8).enumerate() {
            let Some(wrong) = self.wrong_bit(block, mode) else {
                return Run {
                    blocks: n,
                    corrected,
                };
            };
            put_information(&mut information[7 * n..7 * n + 7], &block[..7], wrong);
            corrected += usize::from(wrong.is_some());
        }
        Run {
            blocks: input.len() / 8,
            corrected,
        }
    }
}

// Takes the good codeblocks at the front of the input, judged in the mode; their information to the front of the lent memory. Takes none where the memory
// has no room for all whole codeblocks.
pub fn take_good(input: &[u8], mode: Mode, information: &mut [u8]) -> Run
    ensures run { (result.blocks ≡ good_run (judged mode) (whole_in (length input.now) (length information.old)) input.now) × (result.corrected ≡ corrected_in (judged mode) result.blocks input.now) }
    ensures memory { information.new ≡ information_in (judged mode) result.blocks input.now ++ drop (length (information_in (judged mode) result.blocks input.now)) information.old }
{
    if information.len() < input.len() / 8 * 7 {
        return Run {
            blocks: 0,
            corrected: 0,
        };
    }
    Tables::new().take(input, mode, information)
}

// Judges octets as a codeblock, of which there are eight, in the mode: None where they are bad.
pub fn judge(block: &[u8], mode: Mode) -> Option<Judged>
    ensures { result ≡ judged mode block.now }
{
    if block.len() != 8 {
        return None;
    }
    let mut information = [0; 7];
    match take_good(block, mode, &mut information) {
        Run { blocks: 0, .. } => None,
        Run { corrected, .. } => Some(Judged {
            information,
            corrected: corrected as u8,
        }),
    }
}
