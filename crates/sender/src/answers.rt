// What the sender answers: an event done, and a refusal.
ghost use Rattle.std.specs.Prelude.{◌≡◌};
ghost use Rattle.base.specs.Refusals.{refusal_number, written_answer};
ghost use Rattle.sender.specs.Answers.{kind_handed, answered, refusing, concluded, refused_responses, refused_event};

use crate::{Answer, FrameKind, Sender};
use base::Refusal;
use fop::{Event, Run};
use sender_values::start::sender_of;
use sender_values::{Handed, LARGEST_RESPONSES, Responses, SenderState, Work};
use store::PLACES;

// The kind of the frame handed down.
fn kind_handed(handed: Option<Handed>) -> Option<FrameKind>
    ensures { result ≡ kind_handed handed }
{
    match handed {
        None => None,
        Some(Handed::Ad { .. }) => Some(FrameKind::Ad),
        Some(Handed::Bd) => Some(FrameKind::Bd),
        Some(Handed::Unlock) => Some(FrameKind::Unlock),
        Some(Handed::SetVr(_)) => Some(FrameKind::SetVr),
    }
}

// An event that is not refused, with the lengths of the units after it.
fn answered(event: Option<Event>, down: usize, work: Work, lengths: [u16; PLACES]) -> Answer
    ensures { result ≡ answered event down work lengths }
{
    let told = work.told;
    Answer {
        refusal: 0,
        event,
        state: work.state,
        down,
        abort: told.abort,
        alert: told.alert,
        suspended: told.suspended,
        responses: told.responses,
        confirmed: told.confirmed,
        denied: told.denied,
        kind: kind_handed(told.handed),
        next: Sender {
            fop: sender_of(work, lengths),
        },
    }
}

// The responses of a refusal: none, but the reject of the invalid directive, 12.
#[tactic(auto, unfolding(sender_values::specs::Actions::responses_with))]
fn refused_responses(refusal: Refusal) -> Responses
    ensures { result ≡ refused_responses (refusal_number refusal) }
{
    let mut numbers = [0u8; LARGEST_RESPONSES];
    if refusal == Refusal::Setting {
        numbers[0] = 6;
        return Responses { count: 1, numbers };
    }
    Responses { count: 0, numbers }
}

// The event of a refusal: none, but E40 of the invalid directive, 12.
fn refused_event(refusal: Refusal) -> Option<Event>
    ensures { result ≡ refused_event (refusal_number refusal) }
{
    if refusal == Refusal::Setting {
        Some(Event::E40)
    } else {
        None
    }
}

// A refusal: nothing changes.
pub fn refused(sender: SenderState, refusal: Refusal) -> Answer
    ensures { result ≡ refusing (refusal_number refusal) sender }
{
    let none = Run {
        number: 0,
        count: 0,
    };
    Answer {
        refusal: refusal.number(),
        event: refused_event(refusal),
        state: sender.state,
        down: 0,
        abort: false,
        alert: None,
        suspended: false,
        responses: refused_responses(refusal),
        confirmed: none,
        denied: none,
        kind: None,
        next: Sender { fop: sender },
    }
}

// The answer by what writing the frame handed down came to.
pub fn conclude(
    sender: SenderState,
    event: Option<Event>,
    work: Work,
    lengths: [u16; PLACES],
    written: Result<usize, Refusal>,
) -> Answer
    ensures { result ≡ concluded event sender work lengths (written_answer written) }
{
    match written {
        Ok(count) => answered(event, count, work, lengths),
        Err(refusal) => refused(sender, refusal),
    }
}
