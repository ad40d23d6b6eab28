// Document 01, "FOP-1": the well-formed states of the sender, tested. A state that was kept over a reset is told from one that no sender has.
#![tactic(auto, using(base::proofs::Tests::tests), unfolding(crate::specs::State::well_formed))]

ghost use Rattle.std.specs.Prelude.{◌≡◌, leb};
ghost use Rattle.std.specs.List.{list_all};
ghost use Rattle.base.specs.Limits.{largest_unit};
ghost use Rattle.sender_table.specs.Rows.{is_frame};
ghost use Rattle.sender_values.specs.Actions.{units_held};
ghost use Rattle.sender_state.specs.State.{settings_hold, numbers_hold, is_empty, initial_holds, state_holds, lengths_hold, well_formed};

use base::{LARGEST_CHANNEL, LARGEST_K, LARGEST_SPACECRAFT, LARGEST_UNIT};
use fop::State;
use sender_values::values::difference;
use sender_values::{
    Control, LARGEST_SUSPEND_STATE, LARGEST_TIMEOUT_TYPE, Queues, SenderState, Settings, Variables,
};
use store::PLACES;

// Document 01's limits of the settings.
pub fn settings_hold(settings: Settings) -> bool
    ensures { result ≡ settings_hold settings }
{
    (1..=LARGEST_K).contains(&settings.k)
        && settings.t1_initial >= 1
        && settings.transmission_limit >= 1
        && settings.timeout_type <= LARGEST_TIMEOUT_TYPE
        && settings.spacecraft <= LARGEST_SPACECRAFT
        && settings.channel <= LARGEST_CHANNEL
}

// V(S), NN(R), the counts, Transmission_Count and Suspend_State.
fn numbers_hold(variables: Variables, queues: Queues) -> bool
    ensures { result ≡ numbers_hold variables queues }
{
    let outstanding = difference(variables.vs, variables.nnr);
    queues.sent <= LARGEST_K
        && queues.sent <= outstanding
        && queues.marked <= queues.sent
        && variables.transmission_count >= 1
        && variables.suspend_state <= LARGEST_SUSPEND_STATE
}

// A type-BC frame is on the sent queue.
fn is_frame(control: Option<Control>) -> bool
    ensures { result ≡ is_frame control }
{
    control.is_some()
}

// No unit is sent or waits.
fn is_empty(queues: Queues) -> bool
    ensures { result ≡ is_empty queues }
{
    queues.sent == 0 && !queues.waiting
}

// The units of S6: while suspended in S1 to S3 those held there, else none.
fn initial_holds(variables: Variables, queues: Queues) -> bool
    ensures { result ≡ initial_holds variables queues }
{
    matches!(variables.suspend_state, 1..=3) || is_empty(queues)
}

// By the state: Suspend_State 0 outside S6; a type-BC frame in S5 and only there; no unit outside S1 to S3, but while suspended there; the
// timer stopped in S6.
fn state_holds(state: State, variables: Variables, queues: Queues) -> bool
    ensures { result ≡ state_holds state variables queues }
{
    let framed = is_frame(queues.control);
    let serving = variables.suspend_state == 0;
    match state {
        State::S1 | State::S2 | State::S3 => serving && !framed,
        State::S4 => serving && is_empty(queues) && !framed,
        State::S5 => serving && is_empty(queues) && framed,
        State::S6 => initial_holds(variables, queues) && !framed && variables.timer == 0,
    }
}

// The units held: those sent, and the one waiting.
pub fn units_held(sent: u8, waiting: bool) -> u16
    ensures { result ≡ units_held sent waiting }
{
    u16::from(sent) + u16::from(waiting)
}

// A length is that of a unit at the most.
fn is_within(length: u16) -> bool
    ensures { result ≡ leb length largest_unit }
{
    usize::from(length) <= LARGEST_UNIT
}

// Every length is that of a unit at the most. No early end: all are compared at once.
fn lengths_within(lengths: &[u16]) -> bool
    ensures { result ≡ list_all (λ length. leb length largest_unit) lengths.now }
{
    let mut within = true;
    for length in lengths {
        within &= is_within(*length);
    }
    within
}

// No length is 0.
fn lengths_filled(lengths: &[u16]) -> bool
    ensures { result ≡ list_all (leb 1) lengths.now }
{
    let mut filled = true;
    for length in lengths {
        filled &= *length >= 1;
    }
    filled
}

// Both, the second for the first `held` lengths; more units than there are lengths are as many as there are.
fn lengths_hold(lengths: &[u16; PLACES], held: usize) -> bool
    ensures { result ≡ lengths_hold held lengths.now }
{
    lengths_filled(&lengths[..held.min(PLACES)]) && lengths_within(lengths)
}

// A state that some sender can have.
pub fn well_formed(sender: SenderState) -> bool
    ensures { result ≡ well_formed sender }
{
    let held = usize::from(units_held(sender.queues.sent, sender.queues.waiting));
    settings_hold(sender.settings)
        && numbers_hold(sender.variables, sender.queues)
        && state_holds(sender.state, sender.variables, sender.queues)
        && lengths_hold(&sender.lengths, held)
}
