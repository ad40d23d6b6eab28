// A sender at its start, and the work on an event at its start and at its end.
ghost use Rattle.std.specs.Prelude.{◌≡◌};
ghost use Rattle.sender_values.specs.Start.{start_of, none_told, begun, sender_of};

use crate::{LARGEST_RESPONSES, Queues, Responses, SenderState, Settings, Told, Variables, Work};
use fop::{Run, State};
use store::PLACES;

// A sender starts Initial, with its flags Ready, its queues empty, the timer stopped and Transmission_Count 1.
pub fn start(settings: Settings, vs: u8, nnr: u8) -> SenderState
    ensures { result ≡ start_of settings vs nnr }
{
    SenderState {
        state: State::S6,
        settings,
        variables: Variables {
            vs,
            nnr,
            timer: 0,
            transmission_count: 1,
            ad_out: true,
            bc_out: true,
            bd_out: true,
            suspend_state: 0,
        },
        queues: Queues {
            sent: 0,
            marked: 0,
            waiting: false,
            control: None,
            control_marked: false,
        },
        lengths: [0; PLACES],
    }
}

// Nothing is told yet.
fn none_told() -> Told
    ensures { result ≡ none_told }
{
    let none = Run {
        number: 0,
        count: 0,
    };
    Told {
        handed: None,
        abort: false,
        alert: None,
        suspended: false,
        responses: Responses {
            count: 0,
            numbers: [0; LARGEST_RESPONSES],
        },
        confirmed: none,
        denied: none,
    }
}

// The work on an event at its start.
pub fn begin(sender: SenderState) -> Work
    ensures { result ≡ begun sender }
{
    Work {
        state: sender.state,
        settings: sender.settings,
        variables: sender.variables,
        queues: sender.queues,
        told: none_told(),
    }
}

// The sender after the work on an event, with its units' lengths.
pub fn sender_of(work: Work, lengths: [u16; PLACES]) -> SenderState
    ensures { result ≡ sender_of work lengths }
{
    SenderState {
        state: work.state,
        settings: work.settings,
        variables: work.variables,
        queues: work.queues,
        lengths,
    }
}
