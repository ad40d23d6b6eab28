// The well-formed states of the receiver, tested: a state that was kept over a reset is told from one that no receiver has.
ghost use Rattle.std.specs.Prelude.{◌≡◌, true, false};
ghost use Rattle.receiver.specs.Receiver.{must_be_within};
ghost use Rattle.receiver.specs.State.{well_formed};

use crate::{LARGEST_BUFFERS, ReceiverState};
use base::{LARGEST_CHANNEL, LARGEST_SPACECRAFT};

// Whether every setting is within its limit.
pub(crate) fn are_within(spacecraft: u16, channel: u8, window: u8, buffers: u8) -> bool
    ensures { result ≡ must_be_within spacecraft channel window buffers false true }
{
    spacecraft <= LARGEST_SPACECRAFT
        && channel <= LARGEST_CHANNEL
        && window % 2 == 0
        && window >= 2
        && (1..=LARGEST_BUFFERS).contains(&buffers)
}

// A state that some receiver can have: the settings are those of a new one, the rest is as every event leaves it.
pub fn well_formed(state: ReceiverState) -> bool
    ensures { result ≡ well_formed state }
{
    let ReceiverState {
        spacecraft,
        buffers,
        channel,
    } = state;
    are_within(spacecraft, channel.number, channel.window, buffers)
        && channel.flags_agree()
        && channel.variables.counter < 4
        && channel.held <= buffers
        && (!channel.variables.wait || channel.held == buffers)
}
