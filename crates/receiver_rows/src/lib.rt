// Clause 7.9.3, table 7-9: the event of an AD frame, the variables of FARM-1 after an event, row by row, and the unit accepted.
#![tactic(auto, using(farm::proofs::Cells::told, farm::proofs::Cells::same, farm::proofs::Units::unit_told_lem, farm::proofs::Units::unit_anywhere), unfolding(farm::specs::Window::ad_event, farm::specs::Table::accepts, farm::specs::Table::step_of, farm::specs::Table::table, farm::specs::Table::perform_all, farm::specs::Table::perform))]

ghost use Rattle.std.specs.Prelude.{◌≡◌, ◌+◌, ◌%◌};
ghost use Rattle.base.specs.Choice.{both};
ghost use Rattle.base.specs.Modulo.{offset};
ghost use Rattle.farm.specs.declared.Event.TheVariants.{E1, E2, E3, E5, E6, E7, E8, E10};
ghost use Rattle.farm.specs.Table.{step_of, unit_of};
ghost use Rattle.farm.specs.Window.{not_wait, ad_event};

use farm::{AcceptedUnit, Event, State, Variables};

// The FARM-B counter, one more modulo 4.
fn counted(v: Variables) -> u8
    ensures { result ≡ (v.counter + 1) % 4 }
{
    (v.counter % 4 + 1) % 4
}

// Row E1.
fn e1(v: Variables) -> Variables
    ensures { result ≡ step_of E1 0 v }
{
    match v.state {
        State::Open => Variables {
            vr: v.vr.wrapping_add(1),
            retransmit: false,
            ..v
        },
        State::Wait | State::Lockout => v,
    }
}

// Row E2.
fn e2(v: Variables) -> Variables
    ensures { result ≡ step_of E2 0 v }
{
    match v.state {
        State::Open => Variables {
            state: State::Wait,
            wait: true,
            retransmit: true,
            ..v
        },
        State::Wait | State::Lockout => v,
    }
}

// Row E3.
fn e3(v: Variables) -> Variables
    ensures { result ≡ step_of E3 0 v }
{
    match v.state {
        State::Open => Variables {
            retransmit: true,
            ..v
        },
        State::Wait | State::Lockout => v,
    }
}

// Row E5.
fn e5(v: Variables) -> Variables
    ensures { result ≡ step_of E5 0 v }
{
    match v.state {
        State::Open | State::Wait => Variables {
            state: State::Lockout,
            lockout: true,
            ..v
        },
        State::Lockout => v,
    }
}

// Row E6.
fn e6(v: Variables) -> Variables
    ensures { result ≡ step_of E6 0 v }
{
    Variables {
        counter: counted(v),
        ..v
    }
}

// Row E7.
fn e7(v: Variables) -> Variables
    ensures { result ≡ step_of E7 0 v }
{
    let open = Variables {
        state: State::Open,
        retransmit: false,
        counter: counted(v),
        ..v
    };
    match v.state {
        State::Open => open,
        State::Wait => Variables {
            wait: false,
            ..open
        },
        State::Lockout => Variables {
            wait: false,
            lockout: false,
            ..open
        },
    }
}

// Row E8; star is V*(R).
fn e8(v: Variables, star: u8) -> Variables
    ensures { result ≡ step_of E8 star v }
{
    let counter = counted(v);
    match v.state {
        State::Open => Variables {
            vr: star,
            retransmit: false,
            counter,
            ..v
        },
        State::Wait => Variables {
            state: State::Open,
            vr: star,
            wait: false,
            retransmit: false,
            counter,
            ..v
        },
        State::Lockout => Variables { counter, ..v },
    }
}

// Row E10.
fn e10(v: Variables) -> Variables
    ensures { result ≡ step_of E10 0 v }
{
    match v.state {
        State::Open => v,
        State::Wait => Variables {
            state: State::Open,
            wait: false,
            ..v
        },
        State::Lockout => Variables { wait: false, ..v },
    }
}

// The variables after an event, by table 7-9. Rows E4, E9 and E11 change nothing.
pub fn step(v: Variables, event: Event, star: u8) -> Variables
    ensures { result ≡ step_of event star v }
{
    match event {
        Event::E1 => e1(v),
        Event::E2 => e2(v),
        Event::E3 => e3(v),
        Event::E5 => e5(v),
        Event::E6 => e6(v),
        Event::E7 => e7(v),
        Event::E8 => e8(v, star),
        Event::E10 => e10(v),
        Event::E4 | Event::E9 | Event::E11 => v,
    }
}

// The unit that an event accepts in a state.
pub fn unit_of(event: Event, state: State) -> Option<AcceptedUnit>
    ensures { result ≡ unit_of event state }
{
    match (event, state) {
        (Event::E1, State::Open) => Some(AcceptedUnit::Ad),
        (Event::E6, _) => Some(AcceptedUnit::Bd),
        _ => None,
    }
}

// d = N(S) - V(R) modulo 256.
pub fn distance(number: u8, vr: u8) -> u8
    ensures { result ≡ offset number vr }
{
    number.wrapping_sub(vr)
}

// The event of a valid AD frame at offset d = N(S) - V(R) modulo 256. An expected frame finds a free buffer where there is room, but never in Wait.
pub fn ad_event(window: u8, state: State, room: bool, d: u8) -> Event
    ensures { result ≡ ad_event window state room d }
{
    let half = window / 2;
    match d {
        0 if room && state != State::Wait => Event::E1,
        0 => Event::E2,
        d if d < half => Event::E3,
        d if u16::from(d) + u16::from(half) < 256 => Event::E5,
        _ => Event::E4,
    }
}
