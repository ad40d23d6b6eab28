// What C and Rust call: numbers, and octets as a pointer and a length. Each function passes its arguments on and puts the answer into numbers
// (crates pondreszi_numbers, pondreszi_receiver, pondreszi_channels and pondreszi_sender). Only this crate's functions are exported. This file:
// channel coding (clause 8); the modules: frames and control words (clause 6), receiver, receiver of several channels and sender (clause 7).
#![tactic(auto)]

pub mod channel_calls;
pub mod frames;
pub mod receivers;
pub mod senders;
pub mod words;

ghost use Rattle.std.specs.Prelude.{◌≡◌, length};
ghost use Rattle.base.specs.Outcome.{answer, after, number_of, count_of};
ghost use Rattle.codeblock.specs.Codeblock.{error_control};
ghost use Rattle.randomizer.specs.Randomizer.{octet};
ghost use Rattle.cltu.specs.Cltu.{writing};
ghost use Rattle.pondreszi_numbers.specs.Numbers.{cltu_reading, codeblock_judging, bits_corrected, place_of, corrected_of};

use base::{LARGEST_INPUT, Refusal};
use pondreszi_numbers::coding::{LARGEST_MODE, mode_of, told_judged, told_reading};
use pondreszi_numbers::told_written;

#[unsafe(no_mangle)]
pub extern "C" fn pondreszi_codeblock_error_control(information: &[u8]) -> u8
    ensures { result ≡ error_control information.now }
{
    encoded_data::block::error_control(information)
}

#[unsafe(no_mangle)]
pub extern "C" fn pondreszi_codeblock_judge(
    block: &[u8],
    mode: u32,
    information: &mut [u8],
    corrected: &mut u8,
) -> u8
    ensures number { result ≡ number_of (answer (codeblock_judging mode block.now (length information.old))) }
    ensures memory { information.new ≡ after (codeblock_judging mode block.now (length information.old)) information.old }
    ensures mended { corrected.new ≡ bits_corrected (answer (codeblock_judging mode block.now (length information.old))) }
{
    *corrected = 0;
    if block.len() != 8 {
        return Refusal::Length.number();
    }
    if mode > LARGEST_MODE {
        return Refusal::Setting.number();
    }
    told_judged(
        encoded_data::judge(block, mode_of(mode)),
        information,
        corrected,
    )
}

#[unsafe(no_mangle)]
pub extern "C" fn pondreszi_randomizer_octet(place: u64) -> u8
    ensures { result ≡ octet place }
{
    randomizer::octet_at(place)
}

#[unsafe(no_mangle)]
pub extern "C" fn pondreszi_cltu_write(frame: &[u8], output: &mut [u8], count: &mut u64) -> u8
    ensures number { result ≡ number_of (answer (writing frame.now (length output.old))) }
    ensures memory { output.new ≡ after (writing frame.now (length output.old)) output.old }
    ensures told { count.new ≡ count_of (answer (writing frame.now (length output.old))) }
{
    told_written(cltu::writer::write(frame, output), count)
}

#[unsafe(no_mangle)]
pub extern "C" fn pondreszi_cltu_read(
    input: &[u8],
    mode: u32,
    output: &mut [u8],
    count: &mut u64,
    place: &mut u64,
    corrected: &mut u64,
) -> u8
    ensures number { result ≡ number_of (answer (cltu_reading mode input.now (length output.old))) }
    ensures memory { output.new ≡ after (cltu_reading mode input.now (length output.old)) output.old }
    ensures counted { count.new ≡ count_of (answer (cltu_reading mode input.now (length output.old))) }
    ensures placed { place.new ≡ place_of (answer (cltu_reading mode input.now (length output.old))) }
    ensures mended { corrected.new ≡ corrected_of (answer (cltu_reading mode input.now (length output.old))) }
{
    *count = 0;
    *place = 0;
    *corrected = 0;
    if input.len() > LARGEST_INPUT {
        return Refusal::Length.number();
    }
    if mode > LARGEST_MODE {
        return Refusal::Setting.number();
    }
    let reading = cltu::reader::read(input, mode_of(mode), output);
    told_reading(reading, count, place, corrected)
}
