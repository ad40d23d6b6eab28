// A directive by its number, 1 to 11: E23 to E40. Any other number, or a value outside its limit, is the invalid directive, E40.
#![tactic(auto, using(base::proofs::Tests::tests), unfolding(crate::specs::Rows::initiate, crate::specs::Rows::resume, crate::specs::Rows::set_number, crate::specs::Rows::set_limit))]

ghost use Rattle.std.specs.Prelude.{◌≡◌};
ghost use Rattle.sender_events.specs.Events.{event_of_directive, window_of};
ghost use Rattle.sender_events.specs.Rows.{initiate, resume, set_number, set_limit};

use fop::Event;
use sender_values::SenderState;

// Document 01, "Limits".
const LARGEST_NUMBER: u16 = 255;

const LARGEST_K: u16 = base::LARGEST_K as u16;

const LARGEST_TRANSMISSION_LIMIT: u16 = 255;

const LARGEST_TIMEOUT_TYPE: u16 = sender_values::LARGEST_TIMEOUT_TYPE as u16;

// Initiate AD service with Unlock (3) or with Set V(R) (4): by BC_Out_Flag.
fn initiate_event(number: u8, value: u16, ready: bool) -> Event
    ensures { result ≡ initiate number value ready }
{
    match (number, ready) {
        (3, true) => Event::E25,
        (3, false) => Event::E26,
        _ if value > LARGEST_NUMBER => Event::E40,
        (_, true) => Event::E27,
        (_, false) => Event::E28,
    }
}

// Resume AD service: by Suspend_State.
fn resume_event(suspend_state: u8) -> Event
    ensures { result ≡ resume suspend_state }
{
    match suspend_state {
        0 => Event::E30,
        1 => Event::E31,
        2 => Event::E32,
        3 => Event::E33,
        _ => Event::E34,
    }
}

// Set V(S) (7), Set K (8): the value within its limit.
fn set_number_event(number: u8, value: u16) -> Event
    ensures { result ≡ set_number number value }
{
    match number {
        7 if value > LARGEST_NUMBER => Event::E40,
        7 => Event::E35,
        _ if (1..=LARGEST_K).contains(&value) => Event::E36,
        _ => Event::E40,
    }
}

// Set timer (9), Set transmission limit (10), Set Timeout_Type (11): the value within its limit.
fn set_limit_event(number: u8, value: u16) -> Event
    ensures { result ≡ set_limit number value }
{
    match number {
        11 if value > LARGEST_TIMEOUT_TYPE => Event::E40,
        11 => Event::E39,
        _ if value < 1 => Event::E40,
        9 => Event::E37,
        _ if value > LARGEST_TRANSMISSION_LIMIT => Event::E40,
        _ => Event::E38,
    }
}

// The event of a directive.
pub fn directive_event(sender: SenderState, number: u8, value: u16) -> Event
    ensures { result ≡ event_of_directive number value sender }
{
    match number {
        1 => Event::E23,
        2 => Event::E24,
        3..=4 => initiate_event(number, value, sender.variables.bc_out),
        5 => Event::E29,
        6 => resume_event(sender.variables.suspend_state),
        7..=8 => set_number_event(number, value),
        9..=11 => set_limit_event(number, value),
        _ => Event::E40,
    }
}

// The window that the lent store is judged by: K, at Set K (8) the new K.
pub fn window_of(k: u8, number: u8, value: u16) -> u16
    ensures { result ≡ window_of number value k }
{
    if number == 8 { value } else { u16::from(k) }
}
