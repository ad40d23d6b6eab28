// A valid control word of our channel: E1 to E14 and E101 to E103. Numbers are compared modulo 256, from NN(R) on: `acknowledged` is
// N(R) - NN(R), `outstanding` is V(S) - NN(R).
#![tactic(auto, using(base::proofs::Tests::tests), unfolding(crate::specs::Rows::all_acknowledged, crate::specs::Rows::some_acknowledged, crate::specs::Rows::none_acknowledged, crate::specs::Rows::retransmission_asked))]

ghost use Rattle.std.specs.Prelude.{◌≡◌};
ghost use Rattle.sender_events.specs.Events.{event_of_word};
ghost use Rattle.sender_events.specs.Rows.{all_acknowledged, some_acknowledged, none_acknowledged, retransmission_asked};

use clcw::Clcw;
use fop::Event;
use sender_values::SenderState;
use sender_values::values::difference;

// N(R) = V(S): E1 to E4.
fn all_acknowledged(word: Clcw, acknowledged: u8) -> Event
    ensures { result ≡ all_acknowledged word acknowledged }
{
    match (word.retransmit, word.wait, acknowledged) {
        (true, _, _) => Event::E4,
        (false, true, _) => Event::E3,
        (false, false, 0) => Event::E1,
        (false, false, _) => Event::E2,
    }
}

// N(R) before V(S), no retransmission asked: E5 to E7.
fn some_acknowledged(word: Clcw, acknowledged: u8) -> Event
    ensures { result ≡ some_acknowledged word acknowledged }
{
    match (word.wait, acknowledged) {
        (true, _) => Event::E7,
        (false, 0) => Event::E5,
        (false, _) => Event::E6,
    }
}

// N(R) before V(S), retransmission asked, nothing new acknowledged: E10 to E12 and E103.
fn none_acknowledged(word: Clcw, short: bool) -> Event
    ensures { result ≡ none_acknowledged word short }
{
    match (short, word.wait) {
        (true, true) => Event::E11,
        (true, false) => Event::E10,
        (false, true) => Event::E103,
        (false, false) => Event::E12,
    }
}

// N(R) before V(S), retransmission asked: E8 to E12 and E101 to E103.
fn retransmission(sender: SenderState, word: Clcw, acknowledged: u8) -> Event
    ensures { result ≡ retransmission_asked sender word acknowledged }
{
    let short = sender.variables.transmission_count < sender.settings.transmission_limit;
    match (sender.settings.transmission_limit, acknowledged, word.wait) {
        (1, 0, _) => Event::E102,
        (1, _, _) => Event::E101,
        (_, 0, _) => none_acknowledged(word, short),
        (_, _, true) => Event::E9,
        (_, _, false) => Event::E8,
    }
}

// The event of a valid control word.
pub fn word_event(sender: SenderState, word: Clcw) -> Event
    ensures { result ≡ event_of_word word sender }
{
    let outstanding = difference(sender.variables.vs, sender.variables.nnr);
    let acknowledged = difference(word.report, sender.variables.nnr);
    if word.lockout {
        return Event::E14;
    }
    if outstanding < acknowledged {
        return Event::E13;
    }
    if acknowledged == outstanding {
        return all_acknowledged(word, acknowledged);
    }
    if word.retransmit {
        return retransmission(sender, word, acknowledged);
    }
    some_acknowledged(word, acknowledged)
}
