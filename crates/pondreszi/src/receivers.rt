// FARM-1, the receiver (clause 7). Its state lies in a lent buffer of 12 octets (crate receiver_octets, specs/Kept), which a caller may keep over a
// reset. Octets that are no state are refused by 12 and stay as they are.
ghost use Rattle.std.specs.Prelude.{◌≡◌, length};
ghost use Rattle.base.specs.Outcome.{answer, after, number_of, count_of};
ghost use Rattle.pondreszi_receiver.specs.Receivers.{new_call, frame_call, release_call, word_call};

use pondreszi_receiver::{frame_call, new_call, release_call, word_call};

#[unsafe(no_mangle)]
pub extern "C" fn pondreszi_receiver_new(
    spacecraft: u32,
    channel: u32,
    window: u32,
    vr: u32,
    buffers: u32,
    state: &mut [u8],
) -> u8
    ensures number { result ≡ (new_call spacecraft channel window vr buffers state.old).number }
    ensures states { state.new ≡ (new_call spacecraft channel window vr buffers state.old).state }
{
    new_call(spacecraft, channel, window, vr, buffers, state)
}

// The unit accepted has `count` octets from octet `first` of the frame on.
#[unsafe(no_mangle)]
pub extern "C" fn pondreszi_receiver_frame(
    state: &mut [u8],
    frame: &[u8],
    event: &mut u8,
    unit: &mut u8,
    first: &mut u64,
    count: &mut u64,
) -> u8
    ensures number { result ≡ (frame_call state.old frame.now).number }
    ensures events { event.new ≡ (frame_call state.old frame.now).event }
    ensures units { unit.new ≡ (frame_call state.old frame.now).unit }
    ensures places { first.new ≡ (frame_call state.old frame.now).first }
    ensures counts { count.new ≡ (frame_call state.old frame.now).count }
    ensures states { state.new ≡ (frame_call state.old frame.now).state }
{
    frame_call(state, frame, event, unit, first, count)
}

#[unsafe(no_mangle)]
pub extern "C" fn pondreszi_receiver_release(state: &mut [u8], event: &mut u8) -> u8
    ensures number { result ≡ (release_call state.old).number }
    ensures events { event.new ≡ (release_call state.old).event }
    ensures states { state.new ≡ (release_call state.old).state }
{
    release_call(state, event)
}

#[unsafe(no_mangle)]
pub extern "C" fn pondreszi_receiver_word(state: &[u8], output: &mut [u8], count: &mut u64) -> u8
    ensures number { result ≡ number_of (answer (word_call state.now (length output.old))) }
    ensures memory { output.new ≡ after (word_call state.now (length output.old)) output.old }
    ensures counted { count.new ≡ count_of (answer (word_call state.now (length output.old))) }
{
    word_call(state, output, count)
}
