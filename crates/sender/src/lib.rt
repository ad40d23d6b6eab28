// Clauses 7.2.2, 7.4 and 7.9.2, table 7-8: FOP-1, the sender. Its events, each with its whole answer; document 01, "FOP-1".
//
// The sender's state goes in by value and comes back in the answer. The units lie in a store that the host lends at every event, the
// same one each time and written by nobody else: one in each place of LARGEST_UNIT octets from offset 0 on, the oldest first, the unit
// waiting behind the sent ones. The frame handed down to the lower layer is written at the front of the lent output. A refusal changes nothing.
#![tactic(auto)]

mod answers;

ghost use Rattle.std.specs.Prelude.{◌≡◌, ◌≤◌, leb, length, Some};
ghost use Rattle.base.specs.Choice.{must};
ghost use Rattle.base.specs.Limits.{largest_unit};
ghost use Rattle.base.specs.Outcome.{Outcome.refused, answer, after};
ghost use Rattle.base.specs.Refusals.{written_answer};
ghost use Rattle.sender_frames.specs.Frames.{handed_writing, unit_before};
ghost use Rattle.fop.specs.Store.{store_need};
ghost use Rattle.sender.specs.Answers.{stored, concluded};
ghost use Rattle.sender.specs.Start.{starting_of, restored_of};
ghost use Rattle.sender.specs.Events.{store_served, served, added, lengths_offered, offered_by, ticked, event_of_tick, request_ad_of, request_bd_of, directive_of, tick_of, lower_layer_of, control_word_of, event_of};

use crate::answers::{conclude, refused};
use base::Refusal;
use clcw::Clcw;
use fop::{Alert, Lower, Run, State};
use sender_events::directives::{directive_event, window_of};
use sender_events::words::word_event;
use sender_events::{ad_event, bd_event, expiry_event, lower_event};
use sender_frames::units::{lengths_left, remove_oldest};
use sender_frames::{request_refusal, write_handed, write_offered, write_unit_before};
use sender_rows::row;
use sender_state::{settings_hold, well_formed};
use sender_values::start::{begin, start};
use sender_values::{Responses, SenderState, Settings, Work};
use store::lengths::set_length;
use store::units::put_unit;
use store::{PLACES, suffices};

// The sender's state. No other crate can write one: a start gives one, and each answer the next.
#[derive(Clone, Copy)]
pub struct Sender {
    fop: SenderState,
}

// The kind of the frame handed down (table 6-3, clause 7.8), which tells whose accept or reject the lower layer's answer to it is.
#[derive(Clone, Copy)]
pub enum FrameKind {
    Ad,
    Bd,
    Unlock,
    SetVr,
}

// An event of the sender (crate fop, specs/Events, `SenderEvent`). The unit of a request and a control word are octets, lent beside it.
#[derive(Clone, Copy)]
pub enum Event {
    RequestAd,
    RequestBd,
    Tick,
    LowerLayer(Lower),
    Directive { number: u8, value: u16 },
    ControlWord,
}

// The answer to an event: document 01's refusal by its number (0 for done), as the writers' outcomes of crate base give it; the event of table 7-8, if it is one; the next state; the count
// of octets of the frame handed down, at the front of the output (0 where there is none); whether the lower layer is asked to abort; the
// alert; whether a Suspend notification is given (clause 7.9.2.18; document 02, order 9); the responses in their order; the units confirmed and
// denied; the kind of the frame handed down; the next sender.
#[derive(Clone, Copy)]
pub struct Answer {
    pub refusal: u8,
    pub event: Option<fop::Event>,
    pub state: State,
    pub down: usize,
    pub abort: bool,
    pub alert: Option<Alert>,
    pub suspended: bool,
    pub responses: Responses,
    pub confirmed: Run,
    pub denied: Run,
    pub kind: Option<FrameKind>,
    pub next: Sender,
}

// The frame of an event that offers no unit: the store is judged by the window k, the frame is written, then the units confirmed leave the store.
fn serve(
    sender: SenderState,
    k: u16,
    work: Work,
    store: &mut [u8],
    output: &mut [u8],
) -> Result<usize, Refusal>
    ensures answer { written_answer result ≡ answer (must (leb (store_need k sender.queues.sent) (length store.old)) (refused 11 0) (handed_writing sender.settings work.told.handed (unit_before sender work store.old) (length output.old))) }
    ensures store { store.new ≡ stored (answer (must (leb (store_need k sender.queues.sent) (length store.old)) (refused 11 0) (handed_writing sender.settings work.told.handed (unit_before sender work store.old) (length output.old)))) (store_served sender work store.old) store.old }
    ensures output { output.new ≡ after (must (leb (store_need k sender.queues.sent) (length store.old)) (refused 11 0) (handed_writing sender.settings work.told.handed (unit_before sender work store.old) (length output.old))) output.old }
{
    if !suffices(store, k, sender.queues.sent) {
        return Err(Refusal::Room);
    }
    let count = write_unit_before(sender.settings, &sender.lengths, work, store, output)?;
    let confirmed = work.told.confirmed.count;
    remove_oldest(store, &sender.lengths, sender.queues, confirmed);
    Ok(count)
}

// An event that offers no unit, by its row in table 7-8 with the value that it brings: the work begins at the state `begun`.
fn served(
    sender: SenderState,
    k: u16,
    event: Option<fop::Event>,
    value: u16,
    begun: SenderState,
    store: &mut [u8],
    output: &mut [u8],
) -> Answer
    ensures answer { result ≡ (served k event value sender begun store.old output.old).answer }
    ensures store { store.new ≡ (served k event value sender begun store.old output.old).store }
    ensures output { output.new ≡ (served k event value sender begun store.old output.old).output }
{
    let work = row(begin(begun), event, value);
    let written = serve(sender, k, work, store, output);
    let lengths = lengths_left(sender.lengths, work.told.confirmed.count);
    conclude(sender, event, work, lengths, written)
}

// Whether the unit offered is added to the wait queue: E19 in S1 to S3.
fn adds(event: fop::Event, sender: SenderState) -> bool
    ensures { result ≡ added event sender }
{
    event == fop::Event::E19 && matches!(sender.state, State::S1 | State::S2 | State::S3)
}

// The lengths after an AD request: that of the unit offered behind the sent ones, where it is added to the wait queue.
fn lengths_offered(event: fop::Event, sender: SenderState, length: u16) -> [u16; PLACES]
    ensures { result ≡ lengths_offered event sender length }
{
    let mut lengths = sender.lengths;
    if adds(event, sender) {
        set_length(&mut lengths, usize::from(sender.queues.sent), length);
    }
    lengths
}

// An AD request, judged: the frame is written, then the unit offered goes into the store.
fn offer_work(
    sender: SenderState,
    event: fop::Event,
    work: Work,
    unit: &[u8],
    store: &mut [u8],
    output: &mut [u8],
) -> Answer
    requires { length unit.now ≤ largest_unit }
    ensures answer { result ≡ (offered_by event sender work unit.now store.old output.old).answer }
    ensures store { store.new ≡ (offered_by event sender work unit.now store.old output.old).store }
    ensures output { output.new ≡ (offered_by event sender work unit.now store.old output.old).output }
{
    let written = write_offered(sender, work, unit, store, output);
    let lengths = lengths_offered(event, sender, unit.len() as u16);
    if written.is_ok() && adds(event, sender) {
        put_unit(store, sender.queues.sent, unit);
    }
    conclude(sender, Some(event), work, lengths, written)
}

// A BD request, judged: the frame is written.
fn bypass_work(
    sender: SenderState,
    event: fop::Event,
    work: Work,
    unit: &[u8],
    output: &mut [u8],
) -> Answer
    ensures answer { result ≡ concluded (Some event) sender work sender.lengths (answer (handed_writing sender.settings work.told.handed unit.now (length output.old))) }
    ensures output { output.new ≡ after (handed_writing sender.settings work.told.handed unit.now (length output.old)) output.old }
{
    let written = write_handed(sender.settings, work.told.handed, unit, output);
    conclude(sender, Some(event), work, sender.lengths, written)
}

// The state after a tick lowered a running timer by one.
fn lower_timer(mut sender: SenderState) -> SenderState
    ensures { result ≡ ticked sender }
{
    sender.variables.timer = sender.variables.timer.saturating_sub(1);
    sender
}

// The event of a tick: the expiry where it makes the timer zero.
fn tick_event(sender: SenderState) -> Option<fop::Event>
    ensures { result ≡ event_of_tick sender }
{
    if sender.variables.timer == 1 {
        Some(expiry_event(lower_timer(sender)))
    } else {
        None
    }
}

impl Sender {
    // The state, to be kept.
    pub fn state(self) -> SenderState
        ensures { result ≡ self.fop }
    {
        self.fop
    }

    // A sender from a state that was kept; 12 where no sender has it.
    pub fn restore(state: SenderState) -> Result<Sender, Refusal>
        ensures { result ≡ restored_of state }
    {
        if !well_formed(state) {
            return Err(Refusal::Setting);
        }
        Ok(Sender { fop: state })
    }

    // A sender at its start; 12 where a setting is outside its limit, 11 where the lent store is too short.
    pub fn new(settings: Settings, vs: u8, nnr: u8, store: &[u8]) -> Result<Sender, Refusal>
        ensures { result ≡ starting_of settings vs nnr (length store.now) }
    {
        if !settings_hold(settings) {
            return Err(Refusal::Setting);
        }
        if !suffices(store, u16::from(settings.k), 0) {
            return Err(Refusal::Room);
        }
        Ok(Sender {
            fop: start(settings, vs, nnr),
        })
    }

    // Request to transfer an AD unit.
    pub fn request_ad(self, unit: &[u8], store: &mut [u8], output: &mut [u8]) -> Answer
        ensures answer { result ≡ (request_ad_of self.fop unit.now store.old output.old).answer }
        ensures store { store.new ≡ (request_ad_of self.fop unit.now store.old output.old).store }
        ensures output { output.new ≡ (request_ad_of self.fop unit.now store.old output.old).output }
    {
        let sender = self.fop;
        if let Err(refusal) = request_refusal(sender, unit, store) {
            return refused(sender, refusal);
        }
        let event = ad_event(sender);
        let work = row(begin(sender), Some(event), 0);
        offer_work(sender, event, work, unit, store, output)
    }

    // Request to transfer a BD unit.
    pub fn request_bd(self, unit: &[u8], store: &mut [u8], output: &mut [u8]) -> Answer
        ensures answer { result ≡ (request_bd_of self.fop unit.now store.old output.old).answer }
        ensures store { store.new ≡ (request_bd_of self.fop unit.now store.old output.old).store }
        ensures output { output.new ≡ (request_bd_of self.fop unit.now store.old output.old).output }
    {
        let sender = self.fop;
        if let Err(refusal) = request_refusal(sender, unit, store) {
            return refused(sender, refusal);
        }
        let event = bd_event(sender);
        let work = row(begin(sender), Some(event), 0);
        bypass_work(sender, event, work, unit, output)
    }

    // A directive by its number and value; 12 for the invalid directive.
    pub fn directive(self, number: u8, value: u16, store: &mut [u8], output: &mut [u8]) -> Answer
        ensures answer { result ≡ (directive_of number value self.fop store.old output.old).answer }
        ensures store { store.new ≡ (directive_of number value self.fop store.old output.old).store }
        ensures output { output.new ≡ (directive_of number value self.fop store.old output.old).output }
    {
        let sender = self.fop;
        let event = directive_event(sender, number, value);
        if let fop::Event::E40 = event {
            return refused(sender, Refusal::Setting);
        }
        let k = window_of(sender.settings.k, number, value);
        served(sender, k, Some(event), value, sender, store, output)
    }

    // A tick of the timer.
    pub fn tick(self, store: &mut [u8], output: &mut [u8]) -> Answer
        ensures answer { result ≡ (tick_of self.fop store.old output.old).answer }
        ensures store { store.new ≡ (tick_of self.fop store.old output.old).store }
        ensures output { output.new ≡ (tick_of self.fop store.old output.old).output }
    {
        let sender = self.fop;
        let k = u16::from(sender.settings.k);
        let event = tick_event(sender);
        served(sender, k, event, 0, lower_timer(sender), store, output)
    }

    // An answer of the lower layer.
    pub fn lower_layer(self, answer: Lower, store: &mut [u8], output: &mut [u8]) -> Answer
        ensures answer { result ≡ (lower_layer_of answer self.fop store.old output.old).answer }
        ensures store { store.new ≡ (lower_layer_of answer self.fop store.old output.old).store }
        ensures output { output.new ≡ (lower_layer_of answer self.fop store.old output.old).output }
    {
        let sender = self.fop;
        let k = u16::from(sender.settings.k);
        let event = Some(lower_event(answer));
        served(sender, k, event, 0, sender, store, output)
    }

    // A control word, any octets; 10 where it is not of four octets, 7 where it is another channel's.
    pub fn control_word(self, octets: &[u8], store: &mut [u8], output: &mut [u8]) -> Answer
        ensures answer { result ≡ (control_word_of octets.now self.fop store.old output.old).answer }
        ensures store { store.new ≡ (control_word_of octets.now self.fop store.old output.old).store }
        ensures output { output.new ≡ (control_word_of octets.now self.fop store.old output.old).output }
    {
        let sender = self.fop;
        let k = u16::from(sender.settings.k);
        match Clcw::read(octets, sender.settings.channel) {
            Ok(Some(received)) => {
                let word = received.word;
                let event = Some(word_event(sender, word));
                served(
                    sender,
                    k,
                    event,
                    u16::from(word.report),
                    sender,
                    store,
                    output,
                )
            }
            Ok(None) => {
                let event = Some(fop::Event::E15);
                served(sender, k, event, 0, sender, store, output)
            }
            Err(refusal) => refused(sender, refusal),
        }
    }

    // Any event; `octets` is the unit or the control word that it brings.
    pub fn event(self, event: Event, octets: &[u8], store: &mut [u8], output: &mut [u8]) -> Answer
        ensures answer { result ≡ (event_of event octets.now self.fop store.old output.old).answer }
        ensures store { store.new ≡ (event_of event octets.now self.fop store.old output.old).store }
        ensures output { output.new ≡ (event_of event octets.now self.fop store.old output.old).output }
    {
        match event {
            Event::RequestAd => self.request_ad(octets, store, output),
            Event::RequestBd => self.request_bd(octets, store, output),
            Event::Tick => self.tick(store, output),
            Event::LowerLayer(answer) => self.lower_layer(answer, store, output),
            Event::Directive { number, value } => self.directive(number, value, store, output),
            Event::ControlWord => self.control_word(octets, store, output),
        }
    }
}
