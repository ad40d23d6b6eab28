// Clauses 7.2.3, 7.5 and 7.9.3, table 7-9: FARM-1, the receiver: its address, its AD buffers and its channel.
#![tactic(auto, using(farm::proofs::Units::ad_unit, farm::proofs::Windows::e1_room), unfolding(crate::specs::Channel::event_of, crate::specs::Channel::answered, crate::specs::Channel::arrived, crate::specs::Channel::release_of, crate::specs::Receiver::start_of, crate::specs::Receiver::answered, crate::specs::Receiver::arrived, crate::specs::Receiver::by_reading, crate::specs::Receiver::receive_of, crate::specs::Receiver::unit_part, crate::specs::Receiver::release_of, crate::specs::Receiver::word_of, crate::specs::State::well_formed, crate::specs::State::restored_of))]

mod events;
mod shared;
mod state;

ghost use Rattle.std.specs.Prelude.{◌≡◌, None, length};
ghost use Rattle.base.specs.Outcome.{answer, after};
ghost use Rattle.clcw.specs.Clcw.{writing};
ghost use Rattle.base.specs.Refusals.{result_number, written_answer};
ghost use Rattle.farm.specs.declared.Event.TheVariants.{E9};
ghost use Rattle.receiver.specs.Receiver.{at_start, start_of, start_refusal, has_room, told_by, answered, arrived, receive_of, unit_part, release_of, release_refusal, word_of};
ghost use Rattle.receiver.specs.State.{restored_of};

use crate::state::{are_within, well_formed};
use base::Refusal;
use farm::{AcceptedUnit, Event, State, Variables};
use frame::Kind;

// Document 01, "Limits": AD buffers 1 to 8.
pub const LARGEST_BUFFERS: u8 = 8;

// Document 01: a receiver starts Open, with flags and counter zero; here at V(R) 0.
pub const AT_START: Variables = Variables {
    state: State::Open,
    vr: 0,
    lockout: false,
    wait: false,
    retransmit: false,
    counter: 0,
};

// A virtual channel: its number, its window W, the AD units that it holds (each has a buffer), and the variables of clause 7.2.3.
#[derive(Clone, Copy)]
pub struct Channel {
    pub number: u8,
    pub window: u8,
    pub held: u8,
    pub variables: Variables,
}

// What an event gives of the channel: the event, the unit accepted, the channel next.
#[derive(Clone, Copy)]
pub struct ChannelAnswer {
    pub event: Event,
    pub unit: Option<AcceptedUnit>,
    pub next: Channel,
}

// The receiver's state: its spacecraft, its AD buffers and its channel.
#[derive(Clone, Copy)]
pub struct ReceiverState {
    pub spacecraft: u16,
    pub buffers: u8,
    pub channel: Channel,
}

// The receiver. No other crate can write one: a start gives one, and each answer the next.
#[derive(Clone, Copy)]
pub struct Receiver {
    farm: ReceiverState,
}

// What an event gives: the frame's refusal where there is one, the event, the unit accepted, the receiver next.
#[derive(Clone, Copy)]
pub struct Received {
    pub refusal: Option<Refusal>,
    pub event: Event,
    pub unit: Option<AcceptedUnit>,
    pub next: Receiver,
}

impl Receiver {
    // Document 01: a receiver starts with no buffer taken.
    fn at_start(spacecraft: u16, channel: u8, window: u8, vr: u8, buffers: u8) -> Receiver
        ensures { result ≡ at_start spacecraft channel window vr buffers }
    {
        Receiver {
            farm: ReceiverState {
                spacecraft,
                buffers,
                channel: Channel {
                    number: channel,
                    window,
                    held: 0,
                    variables: Variables { vr, ..AT_START },
                },
            },
        }
    }

    // A receiver at its start, or 12 where a setting is outside its limit.
    pub fn new(
        spacecraft: u16,
        channel: u8,
        window: u8,
        vr: u8,
        buffers: u8,
    ) -> Result<Receiver, Refusal>
        ensures value { result ≡ start_of spacecraft channel window vr buffers }
        ensures number { result_number result ≡ start_refusal spacecraft channel window buffers }
    {
        if !are_within(spacecraft, channel, window, buffers) {
            return Err(Refusal::Setting);
        }
        Ok(Receiver::at_start(spacecraft, channel, window, vr, buffers))
    }

    // The receiver's state, for a unit that keeps it over a reset.
    pub fn state(self) -> ReceiverState
        ensures { result ≡ self.farm }
    {
        self.farm
    }

    // A receiver from a state that was kept; 12 where no receiver has it.
    pub fn restore(state: ReceiverState) -> Result<Receiver, Refusal>
        ensures { result ≡ restored_of state }
    {
        if !well_formed(state) {
            return Err(Refusal::Setting);
        }
        Ok(Receiver { farm: state })
    }

    // The state, V(R), the flags and the counter.
    pub fn variables(self) -> Variables
        ensures { result ≡ self.farm.channel.variables }
    {
        self.farm.channel.variables
    }

    // Whether an AD buffer is free.
    fn has_room(self) -> bool
        ensures { result ≡ has_room self }
    {
        self.farm.channel.held < self.farm.buffers
    }

    // The channel's answer as the receiver's.
    fn told(self, refusal: Option<Refusal>, answer: ChannelAnswer) -> Received
        ensures { result ≡ told_by refusal answer self }
    {
        let ChannelAnswer { event, unit, next } = answer;
        let farm = ReceiverState {
            channel: next,
            ..self.farm
        };
        Received {
            refusal,
            event,
            unit,
            next: Receiver { farm },
        }
    }

    // A valid frame of a kind (clause 7.7.2, Valid Frame Arrived Indication).
    pub fn arrive(self, kind: Kind) -> Received
        ensures { result ≡ arrived self kind }
    {
        self.told(None, self.farm.channel.arrive(kind, self.has_room()))
    }

    // A frame that is refused is event E9, with its refusal.
    fn refused(self, refusal: Option<Refusal>) -> Received
        ensures { result ≡ answered refusal E9 0 self }
    {
        self.told(refusal, self.farm.channel.invalid())
    }

    // A frame that is not valid, of which nothing more is known.
    pub fn invalid(self) -> Received
        ensures { result ≡ answered None E9 0 self }
    {
        self.refused(None)
    }

    // Lent octets: a frame that is refused is event E9.
    pub fn receive(self, octets: &[u8]) -> Received
        ensures { result ≡ receive_of self octets.now }
    {
        let reading = frame::read(octets, self.farm.spacecraft, self.farm.channel.number);
        let Ok(fields) = reading else {
            return self.refused(reading.err());
        };
        self.arrive(fields.kind)
    }

    // The unit that lent octets bring to this receiver: the frame's data part where it is accepted, else empty.
    pub fn unit(self, octets: &[u8]) -> &[u8]
        ensures { result.now ≡ unit_part self octets.now }
    {
        match self.receive(octets).unit {
            None => &octets[..0],
            Some(_) => frame::data_field(octets, self.farm.spacecraft, self.farm.channel.number),
        }
    }

    // A buffer release, or 13 where none is taken.
    pub fn release(self) -> Result<Received, Refusal>
        ensures value { result ≡ release_of self }
        ensures number { result_number result ≡ release_refusal self }
    {
        if self.farm.channel.held == 0 {
            return Err(Refusal::Release);
        }
        let answer = self.farm.channel.release(self.has_room())?;
        Ok(self.told(None, answer))
    }

    // The control word, at the front of the output (E11). A refusal changes nothing.
    pub fn word(self, out: &mut [u8]) -> Result<usize, Refusal>
        ensures answer { written_answer result ≡ answer (writing (word_of self) (length out.old)) }
        ensures memory { out.new ≡ after (writing (word_of self) (length out.old)) out.old }
    {
        self.farm.channel.word().write(out)
    }
}
