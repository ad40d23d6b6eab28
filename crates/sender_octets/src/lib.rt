// The sender's state and its answer as octets, for a unit that keeps the state over a reset and for callers in other languages.
#![tactic(auto, unfolding(crate::specs::Answer::octets_of_answer))]

mod reader;
pub mod writer;

ghost use Rattle.std.specs.Prelude.{◌≡◌};
ghost use Rattle.sender_octets.specs.Kept.{octets_of, sender_in};
ghost use Rattle.sender_octets.specs.Answer.{alert_number, kind_number, number_if, octets_of_answer};

use crate::reader::state_in;
use crate::writer::{join, numbers_of, state_number};
use base::Refusal;
use fop::{Alert, Event};
use sender::{Answer, FrameKind, Sender};
use store::PLACES;
use text::same;

// The octets of a state before its lengths: numbers and flags.
const NUMBER_OCTETS: usize = 22;

// The octets of a state: two more for each length.
pub const STATE_OCTETS: usize = NUMBER_OCTETS + 2 * PLACES;

// The octets of an answer.
pub const ANSWER_OCTETS: usize = 18;

// A state as octets.
pub fn octets_of(state: sender_values::SenderState) -> [u8; STATE_OCTETS]
    ensures { result ≡ octets_of state }
{
    join(numbers_of(state), state.lengths)
}

// A sender from octets; 12 where they are no state. Any two octets are those of a length, so that the numbers alone are compared.
pub fn sender_in(octets: &[u8]) -> Result<Sender, Refusal>
    ensures { result ≡ sender_in octets.now }
{
    let Ok(octets) = <&[u8; STATE_OCTETS]>::try_from(octets) else {
        return Err(Refusal::Setting);
    };
    let state = state_in(octets);
    if !same(&octets[..NUMBER_OCTETS], &numbers_of(state)) {
        return Err(Refusal::Setting);
    }
    Sender::restore(state)
}

// The reason of an Alert notification by its number, 0 where there is none.
fn alert_number(alert: Option<Alert>) -> u8
    ensures { result ≡ alert_number alert }
{
    match alert {
        None => 0,
        Some(Alert::Synch) => 1,
        Some(Alert::Clcw) => 2,
        Some(Alert::Limit) => 3,
        Some(Alert::Nnr) => 4,
        Some(Alert::Lockout) => 5,
        Some(Alert::T1) => 6,
        Some(Alert::Term) => 7,
        Some(Alert::Llif) => 8,
    }
}

// The kind of the frame handed down by its number.
fn kind_number(kind: Option<FrameKind>) -> u8
    ensures { result ≡ kind_number kind }
{
    match kind {
        None => 0,
        Some(FrameKind::Ad) => 1,
        Some(FrameKind::Bd) => 2,
        Some(FrameKind::Unlock) => 3,
        Some(FrameKind::SetVr) => 4,
    }
}

// The event of table 7-8 by its number, 0 where there is none.
fn number_if(event: Option<Event>) -> u8
    ensures { result ≡ number_if event }
{
    match event {
        None => 0,
        Some(event) => event.number(),
    }
}

// An answer as octets. The count of octets handed down is told by its lowest two octets.
pub fn octets_of_answer(answer: Answer) -> [u8; ANSWER_OCTETS]
    ensures { result ≡ octets_of_answer answer }
{
    let responses = answer.responses.numbers;
    [
        answer.refusal,
        number_if(answer.event),
        state_number(answer.state),
        (answer.down / 256 % 256) as u8,
        (answer.down % 256) as u8,
        u8::from(answer.abort),
        alert_number(answer.alert),
        u8::from(answer.suspended),
        answer.responses.count,
        responses[0],
        responses[1],
        responses[2],
        responses[3],
        answer.confirmed.number,
        answer.confirmed.count,
        answer.denied.number,
        answer.denied.count,
        kind_number(answer.kind),
    ]
}
