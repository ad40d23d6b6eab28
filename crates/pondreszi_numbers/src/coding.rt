// Clauses 8.3, 8.6 and 8.7: what the judge of codeblocks and the reader of CLTUs answered, by numbers.
ghost use Rattle.std.specs.Prelude.{◌≡◌, length};
ghost use Rattle.base.specs.Outcome.{answer, after, number_of, count_of};
ghost use Rattle.cltu.specs.Answers.{read_answer};
ghost use Rattle.pondreszi_numbers.specs.Numbers.{mode_of, information_put, bits_corrected, place_of, corrected_of};

use base::Refusal;
use cltu::reader::CltuReading;
use codeblock::{Judged, Mode};

// The largest number of a mode: 0 is the detecting mode, 1 the correcting mode.
pub const LARGEST_MODE: u32 = 1;

// The mode of a number up to the largest.
pub fn mode_of(number: u32) -> Mode
    ensures { result ≡ mode_of number }
{
    match number {
        0 => Mode::Detecting,
        _ => Mode::Correcting,
    }
}

// What the judge of codeblocks found: the information to the front of the output, and how many bits were corrected; by its number.
pub fn told_judged(block: Option<Judged>, information: &mut [u8], corrected: &mut u8) -> u8
    ensures number { result ≡ number_of (answer (information_put block (length information.old))) }
    ensures memory { information.new ≡ after (information_put block (length information.old)) information.old }
    ensures mended { corrected.new ≡ bits_corrected (answer (information_put block (length information.old))) }
{
    *corrected = 0;
    let Some(judged) = block else {
        return Refusal::NoBlock(0).number();
    };
    if information.len() < judged.information.len() {
        return Refusal::Room.number();
    }
    memory::put(information, 0, &judged.information);
    *corrected = judged.corrected;
    0
}

// What the reader answered, by its number, the count of octets handed out, the place, and the count of corrected codeblocks.
pub fn told_reading(
    reading: Result<CltuReading, Refusal>,
    count: &mut u64,
    place: &mut u64,
    corrected: &mut u64,
) -> u8
    ensures number { result ≡ number_of (read_answer reading) }
    ensures counted { count.new ≡ count_of (read_answer reading) }
    ensures placed { place.new ≡ place_of (read_answer reading) }
    ensures mended { corrected.new ≡ corrected_of (read_answer reading) }
{
    *count = 0;
    *place = 0;
    *corrected = 0;
    match reading {
        Ok(told) => {
            *count = told.count as u64;
            *place = told.place as u64;
            *corrected = told.corrected as u64;
            0
        }
        Err(refusal) => {
            if let Refusal::NoStart(at) | Refusal::NoBlock(at) | Refusal::NoEnd(at) = refusal {
                *place = at as u64;
            }
            refusal.number()
        }
    }
}
