// The state that octets would hold.
#![tactic(auto, using(base::proofs::Tests::tests), unfolding(crate::specs::Kept::state_in))]

ghost use Rattle.std.specs.Prelude.{◌≡◌, ◌+◌, ◌<◌};
ghost use Rattle.base.specs.Flags.{is_set};
ghost use Rattle.store.specs.Places.{places};
ghost use Rattle.sender_octets.specs.Kept.{number_octets, state_octets, state_in, state_numbered, control_numbered, pair_at, pairs_from};

use crate::{NUMBER_OCTETS, STATE_OCTETS};
use fop::State;
use sender_values::{Control, Queues, SenderState, Settings, Variables};
use store::PLACES;

// The number of two octets at a place.
fn pair_at(octets: &[u8; STATE_OCTETS], place: usize) -> u16
    requires { place + 1 < state_octets }
    ensures { result ≡ pair_at octets.now place }
{
    u16::from_be_bytes([octets[place], octets[place + 1]])
}

// S1 to S6 by number; any other number as S6.
fn state_numbered(number: u8) -> State
    ensures { result ≡ state_numbered number }
{
    match number {
        1 => State::S1,
        2 => State::S2,
        3 => State::S3,
        4 => State::S4,
        5 => State::S5,
        _ => State::S6,
    }
}

// The type-BC frame by number and value; any other number as none.
fn control_numbered(number: u8, value: u8) -> Option<Control>
    ensures { result ≡ control_numbered number value }
{
    match number {
        1 => Some(Control::Unlock),
        2 => Some(Control::SetVr(value)),
        _ => None,
    }
}

// The flag of that weight is set: its digit, as base/specs/Flags has it.
fn is_set(flags: u8, weight: u8) -> bool
    requires { 0 < weight }
    ensures { result ≡ is_set flags weight }
{
    flags / weight % 2 == 1
}

// The settings.
fn settings_in(octets: &[u8; STATE_OCTETS]) -> Settings
    ensures { result ≡ (state_in octets.now).settings }
{
    Settings {
        k: octets[3],
        t1_initial: pair_at(octets, 4),
        transmission_limit: octets[6],
        timeout_type: octets[7],
        spacecraft: pair_at(octets, 8),
        channel: octets[10],
    }
}

// V(S), NN(R), the timer, Transmission_Count, the out flags and Suspend_State.
fn variables_in(octets: &[u8; STATE_OCTETS]) -> Variables
    ensures { result ≡ (state_in octets.now).variables }
{
    let flags = octets[16];
    Variables {
        vs: octets[11],
        nnr: octets[12],
        timer: pair_at(octets, 13),
        transmission_count: octets[15],
        ad_out: is_set(flags, 1),
        bc_out: is_set(flags, 2),
        bd_out: is_set(flags, 4),
        suspend_state: octets[17],
    }
}

// The lengths of the units. The places are counted, since each length has one in the array.
fn lengths_in(octets: &[u8; STATE_OCTETS]) -> [u16; PLACES]
    ensures { result ≡ pairs_from octets.now number_octets places }
{
    let mut lengths = [0u16; PLACES];
    for i in 0..PLACES {
        lengths[i] = pair_at(octets, NUMBER_OCTETS + 2 * i);
    }
    lengths
}

// The sent queue, the wait queue and the type-BC frame.
fn queues_in(octets: &[u8; STATE_OCTETS]) -> Queues
    ensures { result ≡ (state_in octets.now).queues }
{
    let flags = octets[16];
    Queues {
        sent: octets[18],
        marked: octets[19],
        waiting: is_set(flags, 8),
        control: control_numbered(octets[20], octets[21]),
        control_marked: is_set(flags, 16),
    }
}

// The state.
pub(crate) fn state_in(octets: &[u8; STATE_OCTETS]) -> SenderState
    ensures { result ≡ state_in octets.now }
{
    SenderState {
        state: state_numbered(octets[2]),
        settings: settings_in(octets),
        variables: variables_in(octets),
        queues: queues_in(octets),
        lengths: lengths_in(octets),
    }
}
