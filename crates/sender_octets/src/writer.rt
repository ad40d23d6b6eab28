// A state as octets: numbers and flags, then two for each length, the most significant first.
#![tactic(auto, unfolding(crate::specs::Kept::octets_of))]

ghost use Rattle.std.specs.Prelude.{◌≡◌, ◌++◌, ◌*◌, ◌<◌, ◌≤◌, ◌/◌, ◌%◌, length, get_or};
ghost use Rattle.base.specs.Flags.{bit_of};
ghost use Rattle.memory.specs.Placed.{placed};
ghost use Rattle.store.specs.Places.{places};
ghost use Rattle.sender_octets.specs.Kept.{number_octets, state_octets, octets_of, state_number, control_number, control_value, flags_of, pairs};

use crate::{NUMBER_OCTETS, STATE_OCTETS};
use fop::State;
use sender_values::{Control, SenderState};
use store::PLACES;

// The first octet of a state, and the number of its layout.
const MARK: u8 = 0x53;

const LAYOUT: u8 = 2;

// S1 to S6 by number.
pub fn state_number(state: State) -> u8
    ensures { result ≡ state_number state }
{
    match state {
        State::S1 => 1,
        State::S2 => 2,
        State::S3 => 3,
        State::S4 => 4,
        State::S5 => 5,
        State::S6 => 6,
    }
}

// The type-BC frame by number: none, Unlock, Set V(R).
fn control_number(control: Option<Control>) -> u8
    ensures { result ≡ control_number control }
{
    match control {
        None => 0,
        Some(Control::Unlock) => 1,
        Some(Control::SetVr(_)) => 2,
    }
}

// The value of Set V(R), else 0.
fn control_value(control: Option<Control>) -> u8
    ensures { result ≡ control_value control }
{
    match control {
        Some(Control::SetVr(value)) => value,
        _ => 0,
    }
}

// The flags: AD_Out, BC_Out, BD_Out Ready, a unit waits, the type-BC frame is marked.
fn flags_of(state: SenderState) -> u8
    ensures { result ≡ flags_of state }
{
    let ad_out = u8::from(state.variables.ad_out);
    let bc_out = u8::from(state.variables.bc_out);
    let bd_out = u8::from(state.variables.bd_out);
    let waiting = u8::from(state.queues.waiting);
    let marked = u8::from(state.queues.control_marked);
    ad_out + bc_out * 2 + bd_out * 4 + waiting * 8 + marked * 16
}

// The octets of a state before its lengths.
pub fn numbers_of(state: SenderState) -> [u8; NUMBER_OCTETS]
    ensures { result ++ pairs state.lengths ≡ octets_of state }
{
    let [t1_first, t1_second] = state.settings.t1_initial.to_be_bytes();
    let [spacecraft_first, spacecraft_second] = state.settings.spacecraft.to_be_bytes();
    let [timer_first, timer_second] = state.variables.timer.to_be_bytes();
    [
        MARK,
        LAYOUT,
        state_number(state.state),
        state.settings.k,
        t1_first,
        t1_second,
        state.settings.transmission_limit,
        state.settings.timeout_type,
        spacecraft_first,
        spacecraft_second,
        state.settings.channel,
        state.variables.vs,
        state.variables.nnr,
        timer_first,
        timer_second,
        state.variables.transmission_count,
        flags_of(state),
        state.variables.suspend_state,
        state.queues.sent,
        state.queues.marked,
        control_number(state.queues.control),
        control_value(state.queues.control),
    ]
}

// Puts the lengths behind the numbers, each at its place, since the library says nothing of what is written through `chunks_exact_mut`.
fn put_lengths(octets: &mut [u8], lengths: &[u16; PLACES])
    requires { (state_octets ≤ length octets.old) × (length lengths.now ≡ places) }
    ensures { octets.new ≡ placed octets.old number_octets (pairs lengths.now) }
{
    for (i, length) in lengths.iter().enumerate() {
        let place = NUMBER_OCTETS + 2 * i;
        let [first, second] = length.to_be_bytes();
        octets[place] = first;
        octets[place + 1] = second;
    }
}

// Puts the numbers and flags at the front, then the lengths; changes nothing where they do not fit.
fn put_parts(octets: &mut [u8], numbers: &[u8; NUMBER_OCTETS], lengths: &[u16; PLACES])
    requires { (length numbers.now ≡ number_octets) × (length lengths.now ≡ places) }
    ensures { octets.new ≡ placed octets.old 0 (numbers.now ++ pairs lengths.now) }
{
    if octets.len() < STATE_OCTETS {
        return;
    }
    memory::put(octets, 0, numbers);
    put_lengths(octets, lengths);
}

// The numbers and flags, then the lengths.
pub fn join(numbers: [u8; NUMBER_OCTETS], lengths: [u16; PLACES]) -> [u8; STATE_OCTETS]
    ensures { result ≡ numbers ++ pairs lengths }
{
    let mut octets = [0u8; STATE_OCTETS];
    put_parts(&mut octets, &numbers, &lengths);
    octets
}

// Puts a state at the front of lent octets; changes nothing where it does not fit.
pub fn put_state(octets: &mut [u8], state: SenderState)
    ensures { octets.new ≡ placed octets.old 0 (octets_of state) }
{
    put_parts(octets, &numbers_of(state), &state.lengths);
}
