// Clause 7.2.3 and table 7-9: the states, events and variables of FARM-1, and the unit accepted. The table and its window: specs/.
#![tactic(auto)]

ghost use Rattle.std.specs.Prelude.{◌≡◌};
ghost use Rattle.farm.specs.Table.{event_number};

#[derive(Clone, Copy, Debug, PartialEq, Eq)]
pub enum State {
    Open = 1,
    Wait,
    Lockout,
}

#[derive(Clone, Copy, Debug, PartialEq, Eq)]
pub enum Event {
    E1 = 1,
    E2,
    E3,
    E4,
    E5,
    E6,
    E7,
    E8,
    E9,
    E10,
    E11,
}

// The variables of clause 7.2.3 that table 7-9 changes.
#[derive(Clone, Copy, Debug, PartialEq, Eq)]
pub struct Variables {
    pub state: State,
    pub vr: u8,
    pub lockout: bool,
    pub wait: bool,
    pub retransmit: bool,
    pub counter: u8,
}

// The unit that an event accepts, by the type of its frame.
#[derive(Clone, Copy, Debug, PartialEq, Eq)]
pub enum AcceptedUnit {
    Ad,
    Bd,
}

// An event of table 7-9 by its number.
pub fn event_number(event: Event) -> u8
    ensures { result ≡ event_number event }
{
    event as u8
}
