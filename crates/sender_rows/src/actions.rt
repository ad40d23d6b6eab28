// The actions of table 7-8, each with its function.
#![tactic(auto, unfolding(sender_table::specs::Rows::done))]

ghost use Rattle.std.specs.Prelude.{◌≡◌};
ghost use Rattle.sender_table.specs.Rows.{done, octet};

use fop::{Action, Response};
use sender_release::entries::{add_to_wait_queue, release_bc_frame};
use sender_release::{alert, initialise, remove_acknowledged_frames};
use sender_transmit::{
    initiate_ad_retransmission, initiate_bc_retransmission, look_for_directive, look_for_fdu,
    transmit_bd_frame, transmit_set_vr, transmit_unlock,
};
use sender_values::Work;
use sender_values::answers::{respond, suspend};
use sender_values::values::{
    ad_out_ready, bc_out_ready, bd_out_ready, cancel_timer, resume, set_k, set_nnr,
    set_suspend_state, set_t1_initial, set_timeout_type, set_transmission_limit, set_vs,
    start_timer,
};

// A value of one octet.
fn octet(value: u16) -> u8
    ensures { result ≡ octet value }
{
    (value % 256) as u8
}

// An action; value is what the event brings.
pub fn perform(work: Work, action: Action, value: u16) -> Work
    ensures { result ≡ done action value work }
{
    match action {
        Action::Ignore => work,
        Action::Accept => respond(work, Response::AcceptDirective),
        Action::Reject => respond(work, Response::RejectDirective),
        Action::Confirm => respond(work, Response::ConfirmDirective),
        Action::RejectAd => respond(work, Response::RejectAdUnit),
        Action::AcceptBd => respond(work, Response::AcceptBdUnit),
        Action::RejectBd => respond(work, Response::RejectBdUnit),
        Action::AddToWaitQueue => add_to_wait_queue(work),
        Action::LookForFdu => look_for_fdu(work),
        Action::LookForDirective => look_for_directive(work),
        Action::RemoveAcknowledgedFrames => remove_acknowledged_frames(work, octet(value)),
        Action::InitiateAdRetransmission => initiate_ad_retransmission(work),
        Action::InitiateBcRetransmission => initiate_bc_retransmission(work),
        Action::ReleaseBcFrame => release_bc_frame(work),
        Action::CancelTimer => cancel_timer(work),
        Action::StartTimer => start_timer(work),
        Action::Alert(reason) => alert(work, Some(reason)),
        Action::Initialise => initialise(work),
        Action::TransmitUnlock => transmit_unlock(work),
        Action::TransmitSetVr => transmit_set_vr(work, octet(value)),
        Action::TransmitBd => transmit_bd_frame(work),
        Action::SetSuspendState(state) => set_suspend_state(work, state),
        Action::Suspend => suspend(work),
        Action::Resume => resume(work),
        Action::SetVs => set_vs(work, octet(value)),
        Action::SetNnr => set_nnr(work, octet(value)),
        Action::SetK => set_k(work, octet(value)),
        Action::SetT1Initial => set_t1_initial(work, value),
        Action::SetTransmissionLimit => set_transmission_limit(work, octet(value)),
        Action::SetTimeoutType => set_timeout_type(work, octet(value)),
        Action::AdOutReady => ad_out_ready(work),
        Action::BcOutReady => bc_out_ready(work),
        Action::BdOutReady => bd_out_ready(work),
    }
}
