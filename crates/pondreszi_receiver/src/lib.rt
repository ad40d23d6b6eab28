// FARM-1, the receiver (clause 7), as C and Rust call it. Its state lies in a lent buffer of 12 octets (crate receiver_octets, specs/Kept), which a caller may keep over a
// reset. Octets that are no state are refused by 12 and stay as they are.
#![tactic(auto)]

ghost use Rattle.std.specs.Prelude.{◌≡◌, length};
ghost use Rattle.base.specs.Outcome.{answer, after, number_of, count_of};
ghost use Rattle.memory.specs.Placed.{placed};
ghost use Rattle.receiver_octets.specs.Kept.{octets_of};
ghost use Rattle.pondreszi_receiver.specs.Receivers.{unit_number, unit_place, data_count, unit_count, start_given, new_call, frame_call, release_call, word_call};

use base::{Refusal, SMALLEST_FRAME};
use farm::{AcceptedUnit, event_number};
use frame_header::HEADER_LENGTH;
use pondreszi_numbers::{BEYOND, NO_CHANNEL, NO_SPACECRAFT, narrow_u8, narrow_u16, told_written};
use receiver::{Received, Receiver};
use receiver_octets::{STATE_OCTETS, octets_of, receiver_in};

// The unit accepted as a number, and where it begins in the frame.
pub fn unit_number(unit: Option<AcceptedUnit>) -> u8
    ensures { result ≡ unit_number unit }
{
    match unit {
        None => 0,
        Some(AcceptedUnit::Ad) => 1,
        Some(AcceptedUnit::Bd) => 2,
    }
}

pub fn unit_place(unit: Option<AcceptedUnit>) -> u64
    ensures { result ≡ unit_place unit }
{
    match unit {
        None => 0,
        Some(_) => HEADER_LENGTH as u64,
    }
}

// The octets of the data field of a frame that is whole: those of the frame, one more than its length field says (clause 6.2.2.8), without header and
// FECF. 0 of octets that are no whole frame.
fn data_count(frame: &[u8]) -> u64
    ensures { result ≡ data_count frame.now }
{
    if frame.len() < SMALLEST_FRAME {
        return 0;
    }
    let total = u16::from_be_bytes([frame[2] % 4, frame[3]]) as usize + 1;
    if total < SMALLEST_FRAME || frame.len() < total {
        return 0;
    }
    (total - 7) as u64
}

// The octets of the unit accepted, which is the frame's data field.
pub fn unit_count(unit: Option<AcceptedUnit>, frame: &[u8]) -> u64
    ensures { result ≡ unit_count unit frame.now }
{
    match unit {
        None => 0,
        Some(_) => data_count(frame),
    }
}

// Puts the state of a receiver at the front of a buffer.
fn keep(receiver: Receiver, state: &mut [u8])
    ensures { state.new ≡ placed state.old 0 (octets_of receiver) }
{
    memory::put(state, 0, &octets_of(receiver));
}

// A receiver by the numbers given.
fn started(
    spacecraft: u32,
    channel: u32,
    window: u32,
    vr: u32,
    buffers: u32,
) -> Result<Receiver, Refusal>
    ensures { result ≡ start_given spacecraft channel window vr buffers }
{
    let Ok(number) = u8::try_from(vr) else {
        return Err(Refusal::Setting);
    };
    Receiver::new(
        narrow_u16(spacecraft, NO_SPACECRAFT),
        narrow_u8(channel, NO_CHANNEL),
        narrow_u8(window, BEYOND),
        number,
        narrow_u8(buffers, BEYOND),
    )
}

// A receiver at its start, by the numbers given.
pub fn new_call(
    spacecraft: u32,
    channel: u32,
    window: u32,
    vr: u32,
    buffers: u32,
    state: &mut [u8],
) -> u8
    ensures number { result ≡ (new_call spacecraft channel window vr buffers state.old).number }
    ensures states { state.new ≡ (new_call spacecraft channel window vr buffers state.old).state }
{
    match started(spacecraft, channel, window, vr, buffers) {
        Ok(receiver) if state.len() >= STATE_OCTETS => {
            keep(receiver, state);
            0
        }
        Ok(_) => Refusal::Room.number(),
        Err(refusal) => refusal.number(),
    }
}

// Lent octets arrive as a frame. The unit accepted has `count` octets from octet `first` of the frame on.
pub fn frame_call(
    state: &mut [u8],
    frame: &[u8],
    event: &mut u8,
    unit: &mut u8,
    first: &mut u64,
    count: &mut u64,
) -> u8
    ensures number { result ≡ (frame_call state.old frame.now).number }
    ensures events { event.new ≡ (frame_call state.old frame.now).event }
    ensures units { unit.new ≡ (frame_call state.old frame.now).unit }
    ensures places { first.new ≡ (frame_call state.old frame.now).first }
    ensures counts { count.new ≡ (frame_call state.old frame.now).count }
    ensures states { state.new ≡ (frame_call state.old frame.now).state }
{
    *event = 0;
    *unit = 0;
    *first = 0;
    *count = 0;
    let receiver = match receiver_in(state) {
        Ok(receiver) => receiver,
        Err(refusal) => return refusal.number(),
    };
    let received = receiver.receive(frame);
    *event = event_number(received.event);
    *unit = unit_number(received.unit);
    *first = unit_place(received.unit);
    *count = unit_count(received.unit, frame);
    keep(received.next, state);
    match received.refusal {
        Some(refusal) => refusal.number(),
        None => 0,
    }
}

// A buffer is given back.
pub fn release_call(state: &mut [u8], event: &mut u8) -> u8
    ensures number { result ≡ (release_call state.old).number }
    ensures events { event.new ≡ (release_call state.old).event }
    ensures states { state.new ≡ (release_call state.old).state }
{
    *event = 0;
    let receiver = match receiver_in(state) {
        Ok(receiver) => receiver,
        Err(refusal) => return refusal.number(),
    };
    match receiver.release() {
        Ok(
            Received {
                event: met,
                next,
                ..
            },
        ) => {
            *event = event_number(met);
            keep(next, state);
            0
        }
        Err(refusal) => refusal.number(),
    }
}

// The control word.
pub fn word_call(state: &[u8], output: &mut [u8], count: &mut u64) -> u8
    ensures number { result ≡ number_of (answer (word_call state.now (length output.old))) }
    ensures memory { output.new ≡ after (word_call state.now (length output.old)) output.old }
    ensures counted { count.new ≡ count_of (answer (word_call state.now (length output.old))) }
{
    match receiver_in(state) {
        Ok(receiver) => told_written(receiver.word(output), count),
        Err(refusal) => told_written(Err(refusal), count),
    }
}
