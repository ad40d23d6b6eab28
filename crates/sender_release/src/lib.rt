// Clauses 7.9.2.4, 7.9.2.5, 7.9.2.13, 7.9.2.14 and 7.9.2.17: frames and units leave the queues.
#![tactic(auto)]

pub mod entries;

ghost use Rattle.std.specs.Prelude.{◌≡◌};
ghost use Rattle.sender_values.specs.Actions.{run_from, staying, removed, remove_acknowledged_frames, emptied, deny_control, purge_sent_queue, not_waiting, purge_wait_queue, alert, initialise};

use crate::entries::release_bc_frame;
use fop::{Alert, Response, Run};
use sender_values::answers::{notify, respond};
use sender_values::values::{cancel_timer, count_one, difference, set_suspend_state};
use sender_values::{Control, Work};

// A run of units from a number on; 0 and 0 where empty.
fn run_from(number: u8, count: u8) -> Run
    ensures { result ≡ run_from number count }
{
    let number = if count == 0 { 0 } else { number };
    Run { number, count }
}

// The units that stay where those before a number are removed.
fn staying(work: Work, number: u8) -> u8
    ensures { result ≡ staying number work }
{
    let outstanding = difference(work.variables.vs, number);
    work.queues.sent.min(outstanding)
}

// Clause 7.9.2.13, Remove acknowledged frames from Sent_Queue: those before N(R).
pub fn remove_acknowledged_frames(mut work: Work, number: u8) -> Work
    ensures { result ≡ remove_acknowledged_frames number work }
{
    let sent = work.queues.sent;
    let rest = staying(work, number);
    work.told.confirmed = run_from(difference(work.variables.vs, sent), difference(sent, rest));
    work.queues.sent = rest;
    work.queues.marked = work.queues.marked.min(rest);
    work.variables.nnr = number;
    work.variables.transmission_count = 1;
    work
}

// The sent queue without its frames; its units are denied.
fn empty_sent_queue(mut work: Work) -> Work
    ensures { result ≡ emptied work }
{
    let sent = work.queues.sent;
    work.told.denied = run_from(difference(work.variables.vs, sent), sent);
    work.queues.sent = 0;
    work.queues.marked = 0;
    release_bc_frame(work)
}

// A type-BC frame purged gives the Negative Confirm of its directive.
#[tactic(auto, using(crate::proofs::Ways::deny_none, crate::proofs::Ways::deny_some))]
fn deny_control(work: Work, control: Option<Control>) -> Work
    ensures { result ≡ deny_control control work }
{
    match control {
        None => work,
        Some(_) => respond(work, Response::DenyDirective),
    }
}

// Clause 7.9.2.4, Purging the Sent_Queue.
pub fn purge_sent_queue(work: Work) -> Work
    ensures { result ≡ purge_sent_queue work }
{
    deny_control(empty_sent_queue(work), work.queues.control)
}

// The wait queue without its unit.
fn not_waiting(mut work: Work) -> Work
    ensures { result ≡ not_waiting work }
{
    work.queues.waiting = false;
    work
}

// Clause 7.9.2.5, Purging the Wait_Queue: its unit is rejected.
pub fn purge_wait_queue(work: Work) -> Work
    ensures { result ≡ purge_wait_queue work }
{
    if work.queues.waiting {
        return respond(not_waiting(work), Response::RejectAdUnit);
    }
    work
}

// Clause 7.9.2.14, Alert; with no reason nothing is notified.
pub fn alert(work: Work, reason: Option<Alert>) -> Work
    ensures { result ≡ alert reason work }
{
    notify(
        purge_wait_queue(purge_sent_queue(cancel_timer(work))),
        reason,
    )
}

// Clause 7.9.2.17, Initialise.
pub fn initialise(work: Work) -> Work
    ensures { result ≡ initialise work }
{
    set_suspend_state(count_one(purge_wait_queue(purge_sent_queue(work))), 0)
}
