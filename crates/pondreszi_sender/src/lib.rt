// FOP-1, the sender (clause 7, table 7-8), as C and Rust call it: its state is octets in a lent buffer, its answer octets in another (crate
// sender_octets). One call for every event, and what the numbers given are to the sender.
#![tactic(auto)]

ghost use Rattle.std.specs.Prelude.{◌≡◌, length};
ghost use Rattle.memory.specs.Placed.{placed};
ghost use Rattle.sender_octets.specs.Kept.{octets_of};
ghost use Rattle.sender_octets.specs.Answer.{octets_of_answer};
ghost use Rattle.pondreszi_sender.specs.Senders.{event_call, lower_numbered, narrow_number, start_given};

use base::Refusal;
use fop::Lower;
use pondreszi_numbers::{BEYOND, LARGEST_PAIR, NO_CHANNEL, NO_SPACECRAFT, narrow_u8, narrow_u16};
use sender::{Answer, Event, Sender};
use sender_octets::writer::put_state;
use sender_octets::{ANSWER_OCTETS, octets_of_answer, sender_in};
use sender_values::Settings;

// An answer, told: the next state and the answer as octets at the front of their buffers, and the refusal, 0 for done.
fn tell(told: Answer, state: &mut [u8], answer: &mut [u8]) -> u8
    ensures number { result ≡ told.refusal }
    ensures state { state.new ≡ placed state.old 0 (octets_of told.next.fop) }
    ensures answer { answer.new ≡ placed answer.old 0 (octets_of_answer told) }
{
    put_state(state, told.next.state());
    let octets = octets_of_answer(told);
    memory::put(answer, 0, &octets);
    told.refusal
}

// Any event, with the octets that it brings: 12 where the octets are no state, then 11 where the answer has no room.
pub fn event_call(
    state: &mut [u8],
    event: Event,
    octets: &[u8],
    store: &mut [u8],
    output: &mut [u8],
    answer: &mut [u8],
) -> u8
    ensures number { result ≡ (event_call state.old event octets.now store.old output.old answer.old).number }
    ensures state { state.new ≡ (event_call state.old event octets.now store.old output.old answer.old).state }
    ensures store { store.new ≡ (event_call state.old event octets.now store.old output.old answer.old).store }
    ensures output { output.new ≡ (event_call state.old event octets.now store.old output.old answer.old).output }
    ensures answer { answer.new ≡ (event_call state.old event octets.now store.old output.old answer.old).answer }
{
    match sender_in(state) {
        Ok(sender) if answer.len() >= ANSWER_OCTETS => {
            let told = sender.event(event, octets, store, output);
            tell(told, state, answer)
        }
        Ok(_) => Refusal::Room.number(),
        Err(refusal) => refusal.number(),
    }
}

// The number of a directive, as the sender takes it: what does not fit, its value too, is the invalid directive.
pub fn narrow_number(number: u32, value: u32) -> u8
    ensures { result ≡ narrow_number number value }
{
    if value > LARGEST_PAIR && matches!(number, 4 | 7..) {
        return 0;
    }
    narrow_u8(number, 0)
}

// An answer of the lower layer by its number.
pub fn lower_numbered(number: u32) -> Lower
    ensures { result ≡ lower_numbered number }
{
    match number {
        1 => Lower::AdAccept,
        2 => Lower::AdReject,
        3 => Lower::BcAccept,
        4 => Lower::BcReject,
        5 => Lower::BdAccept,
        _ => Lower::BdReject,
    }
}

// A sender by the numbers given.
pub fn started(
    k: u32,
    t1_initial: u32,
    transmission_limit: u32,
    timeout_type: u32,
    spacecraft: u32,
    channel: u32,
    vs: u32,
    nnr: u32,
    store: &[u8],
) -> Result<Sender, Refusal>
    ensures { result ≡ start_given k t1_initial transmission_limit timeout_type spacecraft channel vs nnr (length store.now) }
{
    let (Ok(t1_initial), Ok(transmission_limit)) = (
        u16::try_from(t1_initial),
        u8::try_from(transmission_limit),
    ) else {
        return Err(Refusal::Setting);
    };
    let (Ok(vs), Ok(nnr)) = (u8::try_from(vs), u8::try_from(nnr)) else {
        return Err(Refusal::Setting);
    };
    let settings = Settings {
        k: narrow_u8(k, BEYOND),
        t1_initial,
        transmission_limit,
        timeout_type: narrow_u8(timeout_type, BEYOND),
        spacecraft: narrow_u16(spacecraft, NO_SPACECRAFT),
        channel: narrow_u8(channel, NO_CHANNEL),
    };
    Sender::new(settings, vs, nnr, store)
}
