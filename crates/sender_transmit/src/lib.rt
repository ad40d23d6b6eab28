// Clauses 7.9.2.6 to 7.9.2.12, 7.9.2.15 and 7.9.2.16: transmission and retransmission.
#![tactic(auto)]

ghost use Rattle.std.specs.Prelude.{◌≡◌, Some};
ghost use Rattle.sender_values.specs.Actions.{count_for, transmit_ad_frame, send_marked, in_window, look_for_fdu, transmit_bc_frame, transmit_unlock, transmit_set_vr, transmit_bd_frame, send_control, send_marked_control, look_for_directive, again, initiate_ad_retransmission, initiate_bc_retransmission};

use fop::Response;
use sender_values::answers::{abort, hand_down, respond};
use sender_values::values::{difference, hold_control, start_timer};
use sender_values::{Control, Handed, Work};

// Transmission_Count as a unit is added to the sent queue: 1 where that was empty.
fn count_for(sent: u8, count: u8) -> u8
    ensures { result ≡ count_for sent count }
{
    if sent == 0 { 1 } else { count }
}

// Clause 7.9.2.6, Transmit type-AD frame, of the unit waiting.
pub fn transmit_ad_frame(mut work: Work) -> Work
    ensures { result ≡ transmit_ad_frame work }
{
    let number = work.variables.vs;
    let place = work.queues.sent;
    work.variables.vs = number.wrapping_add(1);
    work.variables.transmission_count = count_for(place, work.variables.transmission_count);
    work.variables.ad_out = false;
    work.queues.sent = place.wrapping_add(1);
    work.queues.waiting = false;
    start_timer(hand_down(work, Some(Handed::Ad { number, place })))
}

// The oldest marked unit is sent again, and its mark is off.
fn send_marked(mut work: Work) -> Work
    ensures { result ≡ send_marked work }
{
    let marked = work.queues.marked;
    let number = difference(work.variables.vs, marked);
    let place = difference(work.queues.sent, marked);
    work.variables.ad_out = false;
    work.queues.marked = difference(marked, 1);
    hand_down(work, Some(Handed::Ad { number, place }))
}

// V(S) - NN(R) < K.
fn in_window(work: Work) -> bool
    ensures { result ≡ in_window work }
{
    difference(work.variables.vs, work.variables.nnr) < work.settings.k
}

// Clause 7.9.2.16, Look for FDU: the oldest marked unit again; with none marked the unit waiting, where the window has room.
pub fn look_for_fdu(work: Work) -> Work
    ensures { result ≡ look_for_fdu work }
{
    if !work.variables.ad_out {
        return work;
    }
    if work.queues.marked > 0 {
        return send_marked(work);
    }
    if work.queues.waiting && in_window(work) {
        return transmit_ad_frame(respond(work, Response::AcceptAdUnit));
    }
    work
}

// Clause 7.9.2.7, Transmit type-BC frame.
fn transmit_bc_frame(mut work: Work, control: Control, handed: Handed) -> Work
    ensures { result ≡ transmit_bc_frame (Some control) (Some handed) work }
{
    work.variables.transmission_count = 1;
    work.variables.bc_out = false;
    start_timer(hand_down(hold_control(work, Some(control), false), Some(handed)))
}

// Clause 7.9.2.8, Transmit Unlock type-BC frame.
pub fn transmit_unlock(work: Work) -> Work
    ensures { result ≡ transmit_unlock work }
{
    transmit_bc_frame(work, Control::Unlock, Handed::Unlock)
}

// Clause 7.9.2.9, Transmit Set V(R) type-BC frame.
pub fn transmit_set_vr(work: Work, value: u8) -> Work
    ensures { result ≡ transmit_set_vr value work }
{
    transmit_bc_frame(work, Control::SetVr(value), Handed::SetVr(value))
}

// Clause 7.9.2.10, Transmit type-BD frame.
pub fn transmit_bd_frame(mut work: Work) -> Work
    ensures { result ≡ transmit_bd_frame work }
{
    work.variables.bd_out = false;
    hand_down(work, Some(Handed::Bd))
}

// The type-BC frame is sent again, and its mark is off.
fn send_control(mut work: Work, handed: Handed) -> Work
    ensures { result ≡ send_control (Some handed) work }
{
    work.variables.bc_out = false;
    work.queues.control_marked = false;
    hand_down(work, Some(handed))
}

// The same where it is marked and BC_Out_Flag is Ready.
fn send_marked_control(work: Work, handed: Handed) -> Work
    ensures { result ≡ send_marked_control (Some handed) work }
{
    if work.variables.bc_out && work.queues.control_marked {
        return send_control(work, handed);
    }
    work
}

// Clause 7.9.2.15, Look for directive.
#[tactic(auto, unfolding(sender_values::specs::Actions::look_for_directive_of))]
pub fn look_for_directive(work: Work) -> Work
    ensures { result ≡ look_for_directive work }
{
    match work.queues.control {
        None => work,
        Some(Control::Unlock) => send_marked_control(work, Handed::Unlock),
        Some(Control::SetVr(value)) => send_marked_control(work, Handed::SetVr(value)),
    }
}

// An abort request; Transmission_Count is one more, and the timer is started.
fn again(mut work: Work) -> Work
    ensures { result ≡ again work }
{
    work.variables.transmission_count = work.variables.transmission_count.wrapping_add(1);
    start_timer(abort(work))
}

// Clause 7.9.2.11, Initiate AD retransmission: every unit of the sent queue is marked.
pub fn initiate_ad_retransmission(mut work: Work) -> Work
    ensures { result ≡ initiate_ad_retransmission work }
{
    work.queues.marked = work.queues.sent;
    again(work)
}

// Clause 7.9.2.12, Initiate BC retransmission: the type-BC frame is marked.
pub fn initiate_bc_retransmission(mut work: Work) -> Work
    ensures { result ≡ initiate_bc_retransmission work }
{
    work.queues.control_marked = true;
    again(work)
}
