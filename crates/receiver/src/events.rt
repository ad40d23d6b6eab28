// Clauses 7.2.3 and 7.9.3: one virtual channel of the receiver, by the events of table 7-9. It is told whether an AD buffer is free.
ghost use Rattle.std.specs.Prelude.{◌≡◌, true, ◌+◌, ◌-◌, ◌<◌};
ghost use Rattle.farm.specs.declared.Event.TheVariants.{E1, E9};
ghost use Rattle.receiver.specs.Channel.{answered, arrived, may_release, release_of, word_of};

use crate::{Channel, ChannelAnswer};
use base::Refusal;
use clcw::Clcw;
use farm::{AcceptedUnit, Event, State, Variables};
use frame::Kind;
use receiver_rows::{ad_event, distance, step, unit_of};

// Whether a release is E10: a channel that holds a unit gives one back; one that holds none goes on from Wait where there is room.
fn may_release(held: u8, state: State, room: bool) -> bool
    ensures { result ≡ may_release held state room }
{
    held > 0 || state == State::Wait && room
}

impl Channel {
    // An event by the table. E1 comes only where one more unit can be held.
    fn answer(self, event: Event, star: u8) -> ChannelAnswer
        requires { event ≡ E1 → self.held + 1 < 256 }
        ensures { result ≡ answered event star self }
    {
        let unit = unit_of(event, self.variables.state);
        let held = match unit {
            Some(AcceptedUnit::Ad) => self.held + 1,
            Some(AcceptedUnit::Bd) | None => self.held,
        };
        ChannelAnswer {
            event,
            unit,
            next: Channel {
                held,
                variables: step(self.variables, event, star),
                ..self
            },
        }
    }

    // A valid frame of a kind (clause 7.7.2, Valid Frame Arrived Indication).
    pub(crate) fn arrive(self, kind: Kind, room: bool) -> ChannelAnswer
        requires { room ≡ true → self.held + 1 < 256 }
        ensures { result ≡ arrived room self kind }
    {
        match kind {
            Kind::Ad(number) => {
                let Variables { state, vr, .. } = self.variables;
                let event = ad_event(self.window, state, room, distance(number, vr));
                self.answer(event, 0)
            }
            Kind::Bd => self.answer(Event::E6, 0),
            Kind::Unlock => self.answer(Event::E7, 0),
            Kind::SetVr(value) => self.answer(Event::E8, value),
        }
    }

    // A frame that is refused or not valid.
    pub(crate) fn invalid(self) -> ChannelAnswer
        ensures { result ≡ answered E9 0 self }
    {
        self.answer(Event::E9, 0)
    }

    // A buffer release, or 13 where it is none.
    pub fn release(self, room: bool) -> Result<ChannelAnswer, Refusal>
        ensures { result ≡ release_of room self }
    {
        if !may_release(self.held, self.variables.state, room) {
            return Err(Refusal::Release);
        }
        let less = Channel {
            held: self.held.saturating_sub(1),
            ..self
        };
        Ok(less.answer(Event::E10, 0))
    }

    // The control word (E11): V(R), flags and counter as they are.
    pub fn word(self) -> Clcw
        ensures { result ≡ word_of self }
    {
        let v = self.variables;
        Clcw {
            channel: self.number,
            lockout: v.lockout,
            wait: v.wait,
            retransmit: v.retransmit,
            counter: v.counter,
            report: v.vr,
        }
    }
}
