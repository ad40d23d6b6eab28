// Document 02, order 8: one virtual channel of several that share a pool of AD buffers. What is asked of its record by a receiver of
// other crates, which tells it whether the pool has room.
ghost use Rattle.std.specs.Prelude.{◌≡◌, ltb};
ghost use Rattle.base.specs.Choice.{both};
ghost use Rattle.receiver.specs.Channel.{arrived};
ghost use Rattle.receiver.specs.Shared.{largest_held};
ghost use Rattle.receiver.specs.State.{flags_hold};

use crate::{Channel, ChannelAnswer};
use farm::{State, Variables};
use frame::Kind;

// The units that a record can count.
pub const LARGEST_HELD: u8 = 255;

impl Channel {
    // A valid frame of a kind. A record that counts no further has no room.
    pub fn arrive_with(self, kind: Kind, room: bool) -> ChannelAnswer
        ensures { result ≡ arrived (both room (ltb self.held largest_held)) self kind }
    {
        self.arrive(kind, room && self.held < LARGEST_HELD)
    }

    // Whether its flags are those of its state.
    pub fn flags_agree(self) -> bool
        ensures { result ≡ flags_hold self.variables.state self.variables.lockout self.variables.wait self.variables.retransmit }
    {
        let Variables {
            state,
            lockout,
            wait,
            retransmit,
            ..
        } = self.variables;
        match state {
            State::Open => !lockout && !wait,
            State::Wait => !lockout && wait && retransmit,
            State::Lockout => lockout && (!wait || retransmit),
        }
    }
}
