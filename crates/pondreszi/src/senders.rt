// FOP-1, the sender (clause 7, table 7-8). Its state is octets in a lent buffer, its answer octets in another (crate sender_octets).
ghost use Rattle.std.specs.Prelude.{◌≡◌};
ghost use Rattle.pondreszi_sender.specs.Senders.{request_ad_call, request_bd_call, tick_call, word_call, lower_call, directive_call, new_call};

use base::Refusal;
use pondreszi_numbers::narrow_u16;
use pondreszi_sender::{event_call, lower_numbered, narrow_number, started};
use sender::Event;
use sender_octets::{STATE_OCTETS, octets_of};

// The last answer of the lower layer.
const LAST_LOWER: u32 = 6;

#[unsafe(no_mangle)]
pub extern "C" fn pondreszi_sender_request_ad(
    state: &mut [u8],
    unit: &[u8],
    store: &mut [u8],
    output: &mut [u8],
    answer: &mut [u8],
) -> u8
    ensures number { result ≡ (request_ad_call state.old unit.now store.old output.old answer.old).number }
    ensures state { state.new ≡ (request_ad_call state.old unit.now store.old output.old answer.old).state }
    ensures store { store.new ≡ (request_ad_call state.old unit.now store.old output.old answer.old).store }
    ensures output { output.new ≡ (request_ad_call state.old unit.now store.old output.old answer.old).output }
    ensures answer { answer.new ≡ (request_ad_call state.old unit.now store.old output.old answer.old).answer }
{
    event_call(state, Event::RequestAd, unit, store, output, answer)
}

#[unsafe(no_mangle)]
pub extern "C" fn pondreszi_sender_request_bd(
    state: &mut [u8],
    unit: &[u8],
    store: &mut [u8],
    output: &mut [u8],
    answer: &mut [u8],
) -> u8
    ensures number { result ≡ (request_bd_call state.old unit.now store.old output.old answer.old).number }
    ensures state { state.new ≡ (request_bd_call state.old unit.now store.old output.old answer.old).state }
    ensures store { store.new ≡ (request_bd_call state.old unit.now store.old output.old answer.old).store }
    ensures output { output.new ≡ (request_bd_call state.old unit.now store.old output.old answer.old).output }
    ensures answer { answer.new ≡ (request_bd_call state.old unit.now store.old output.old answer.old).answer }
{
    event_call(state, Event::RequestBd, unit, store, output, answer)
}

#[unsafe(no_mangle)]
pub extern "C" fn pondreszi_sender_directive(
    state: &mut [u8],
    number: u32,
    value: u32,
    store: &mut [u8],
    output: &mut [u8],
    answer: &mut [u8],
) -> u8
    ensures number { result ≡ (directive_call state.old number value store.old output.old answer.old).number }
    ensures state { state.new ≡ (directive_call state.old number value store.old output.old answer.old).state }
    ensures store { store.new ≡ (directive_call state.old number value store.old output.old answer.old).store }
    ensures output { output.new ≡ (directive_call state.old number value store.old output.old answer.old).output }
    ensures answer { answer.new ≡ (directive_call state.old number value store.old output.old answer.old).answer }
{
    let directive = Event::Directive {
        number: narrow_number(number, value),
        value: narrow_u16(value, 0),
    };
    event_call(state, directive, b"", store, output, answer)
}

#[unsafe(no_mangle)]
pub extern "C" fn pondreszi_sender_tick(
    state: &mut [u8],
    store: &mut [u8],
    output: &mut [u8],
    answer: &mut [u8],
) -> u8
    ensures number { result ≡ (tick_call state.old store.old output.old answer.old).number }
    ensures state { state.new ≡ (tick_call state.old store.old output.old answer.old).state }
    ensures store { store.new ≡ (tick_call state.old store.old output.old answer.old).store }
    ensures output { output.new ≡ (tick_call state.old store.old output.old answer.old).output }
    ensures answer { answer.new ≡ (tick_call state.old store.old output.old answer.old).answer }
{
    event_call(state, Event::Tick, b"", store, output, answer)
}

#[unsafe(no_mangle)]
pub extern "C" fn pondreszi_sender_lower_layer(
    state: &mut [u8],
    number: u32,
    store: &mut [u8],
    output: &mut [u8],
    answer: &mut [u8],
) -> u8
    ensures number { result ≡ (lower_call state.old number store.old output.old answer.old).number }
    ensures state { state.new ≡ (lower_call state.old number store.old output.old answer.old).state }
    ensures store { store.new ≡ (lower_call state.old number store.old output.old answer.old).store }
    ensures output { output.new ≡ (lower_call state.old number store.old output.old answer.old).output }
    ensures answer { answer.new ≡ (lower_call state.old number store.old output.old answer.old).answer }
{
    match number {
        1..=LAST_LOWER => {
            let told = Event::LowerLayer(lower_numbered(number));
            event_call(state, told, b"", store, output, answer)
        }
        _ => Refusal::Setting.number(),
    }
}

#[unsafe(no_mangle)]
pub extern "C" fn pondreszi_sender_control_word(
    state: &mut [u8],
    word: &[u8],
    store: &mut [u8],
    output: &mut [u8],
    answer: &mut [u8],
) -> u8
    ensures number { result ≡ (word_call state.old word.now store.old output.old answer.old).number }
    ensures state { state.new ≡ (word_call state.old word.now store.old output.old answer.old).state }
    ensures store { store.new ≡ (word_call state.old word.now store.old output.old answer.old).store }
    ensures output { output.new ≡ (word_call state.old word.now store.old output.old answer.old).output }
    ensures answer { answer.new ≡ (word_call state.old word.now store.old output.old answer.old).answer }
{
    event_call(state, Event::ControlWord, word, store, output, answer)
}

#[unsafe(no_mangle)]
pub extern "C" fn pondreszi_sender_new(
    k: u32,
    t1_initial: u32,
    transmission_limit: u32,
    timeout_type: u32,
    spacecraft: u32,
    channel: u32,
    vs: u32,
    nnr: u32,
    store: &[u8],
    state: &mut [u8],
) -> u8
    ensures number { result ≡ (new_call k t1_initial transmission_limit timeout_type spacecraft channel vs nnr store.now state.old).number }
    ensures state { state.new ≡ (new_call k t1_initial transmission_limit timeout_type spacecraft channel vs nnr store.now state.old).state }
{
    let start = started(
        k,
        t1_initial,
        transmission_limit,
        timeout_type,
        spacecraft,
        channel,
        vs,
        nnr,
        store,
    );
    match start {
        Ok(_) if state.len() < STATE_OCTETS => Refusal::Room.number(),
        Ok(sender) => {
            memory::put(state, 0, &octets_of(sender.state()));
            0
        }
        Err(refusal) => refusal.number(),
    }
}
