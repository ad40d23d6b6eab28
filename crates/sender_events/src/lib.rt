// Table 7-8, its conditions: which event it is that reaches the sender.
#![tactic(auto, using(base::proofs::Tests::tests), unfolding(crate::specs::Events::event_of_expiry, crate::specs::Events::event_of_ad, crate::specs::Events::event_of_bd, sender_values::specs::Start::begun))]

pub mod directives;
pub mod words;

ghost use Rattle.std.specs.Prelude.{◌≡◌};
ghost use Rattle.fop.specs.Events.{lower_event};
ghost use Rattle.sender_events.specs.Events.{event_of_expiry, event_of_ad, event_of_bd};

use fop::{Event, Lower};
use sender_values::SenderState;

// Request to transfer an AD unit: by the wait queue.
pub fn ad_event(sender: SenderState) -> Event
    ensures { result ≡ event_of_ad sender }
{
    if sender.queues.waiting {
        Event::E20
    } else {
        Event::E19
    }
}

// Request to transfer a BD unit: by BD_Out_Flag.
pub fn bd_event(sender: SenderState) -> Event
    ensures { result ≡ event_of_bd sender }
{
    if sender.variables.bd_out {
        Event::E21
    } else {
        Event::E22
    }
}

// The timer expires: by Transmission_Count and Timeout_Type.
pub fn expiry_event(sender: SenderState) -> Event
    ensures { result ≡ event_of_expiry sender }
{
    let short = sender.variables.transmission_count < sender.settings.transmission_limit;
    match (short, sender.settings.timeout_type) {
        (true, 0) => Event::E16,
        (true, _) => Event::E104,
        (false, 0) => Event::E17,
        (false, _) => Event::E18,
    }
}

// Response from the lower layer.
pub fn lower_event(answer: Lower) -> Event
    ensures { result ≡ lower_event answer }
{
    match answer {
        Lower::AdAccept => Event::E41,
        Lower::AdReject => Event::E42,
        Lower::BcAccept => Event::E43,
        Lower::BcReject => Event::E44,
        Lower::BdAccept => Event::E45,
        Lower::BdReject => Event::E46,
    }
}
