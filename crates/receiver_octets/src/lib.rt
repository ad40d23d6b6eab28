// The receiver's state as 12 octets, so that a unit can keep it over a reset. The layout: specs/Kept.
#![tactic(auto)]

ghost use Rattle.std.specs.Prelude.{◌≡◌};
ghost use Rattle.base.specs.Refusals.{result_number};
ghost use Rattle.receiver_octets.specs.Kept.{state_number, state_numbered, flags_octet, variables_in, octets_of, restored_of, restore_refusal};

use base::Refusal;
use farm::{State, Variables};
use receiver::{Channel, Receiver, ReceiverState};

pub const STATE_OCTETS: usize = 12;

// Octets 0 and 1 of every state.
const MARK: u8 = 0x52;

const LAYOUT: u8 = 1;

// The weights of the flags.
const LOCKOUT_FLAG: u8 = 4;

const WAIT_FLAG: u8 = 2;

const RETRANSMIT_FLAG: u8 = 1;

// S1 to S3 of table 7-9 by number.
pub fn state_number(state: State) -> u8
    ensures { result ≡ state_number state }
{
    state as u8
}

pub fn state_numbered(number: u8) -> State
    ensures { result ≡ state_numbered number }
{
    match number {
        1 => State::Open,
        2 => State::Wait,
        _ => State::Lockout,
    }
}

// The flags as an octet.
pub fn flags_octet(v: Variables) -> u8
    ensures { result ≡ flags_octet v.lockout v.wait v.retransmit }
{
    u8::from(v.lockout) * LOCKOUT_FLAG
        + u8::from(v.wait) * WAIT_FLAG
        + u8::from(v.retransmit) * RETRANSMIT_FLAG
}

// The variables that octets hold.
pub fn variables_in(state: u8, vr: u8, flags: u8, counter: u8) -> Variables
    ensures { result ≡ variables_in state vr flags counter }
{
    Variables {
        state: state_numbered(state),
        vr,
        lockout: flags / LOCKOUT_FLAG % 2 == 1,
        wait: flags / WAIT_FLAG % 2 == 1,
        retransmit: flags / RETRANSMIT_FLAG % 2 == 1,
        counter,
    }
}

// A receiver's state as octets.
#[tactic(auto, using(base::proofs::Pairs::pair_parted), unfolding(crate::specs::Kept::octets_of))]
pub fn octets_of(receiver: Receiver) -> [u8; STATE_OCTETS]
    ensures { result ≡ octets_of receiver }
{
    let ReceiverState {
        spacecraft,
        buffers,
        channel,
    } = receiver.state();
    let v = channel.variables;
    let [high, low] = spacecraft.to_be_bytes();
    [
        MARK,
        LAYOUT,
        state_number(v.state),
        high,
        low,
        channel.number,
        channel.window,
        buffers,
        channel.held,
        v.vr,
        flags_octet(v),
        v.counter,
    ]
}

// The receiver whose state octets are, or 12 where they are no state: mark, layout, state and flags decide whether they are as they are written.
#[tactic(auto, using(crate::proofs::Judged::short, crate::proofs::Judged::long, crate::proofs::Judged::other_mark, crate::proofs::Judged::other_layout, crate::proofs::Judged::no_state, crate::proofs::Judged::beyond_state, crate::proofs::Judged::beyond_flags, crate::proofs::Restored::refused_value, crate::proofs::Restored::refused_number))]
pub fn receiver_in(octets: &[u8]) -> Result<Receiver, Refusal>
    ensures value { result ≡ restored_of octets.now }
    ensures number { result_number result ≡ restore_refusal octets.now }
{
    let &[
        MARK,
        LAYOUT,
        state @ 1..=3,
        high,
        low,
        number,
        window,
        buffers,
        held,
        vr,
        flags @ 0..=7,
        counter,
    ] = octets
    else {
        return Err(Refusal::Setting);
    };
    Receiver::restore(ReceiverState {
        spacecraft: u16::from_be_bytes([high, low]),
        buffers,
        channel: Channel {
            number,
            window,
            held,
            variables: variables_in(state, vr, flags, counter),
        },
    })
}
