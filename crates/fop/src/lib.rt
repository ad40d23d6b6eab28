// Clauses 7.2.2, 7.4, 7.9.2 and table 7-8: FOP-1, the sender. It is defined in specs/; here stand the types that the definitions share with
// the code, which is crate sender and those below it.
#![tactic(auto)]

ghost use Rattle.std.specs.Prelude.{◌≡◌};
ghost use Rattle.fop.specs.Table.{event_number, event_of, as_code};

// Active, Retransmit without wait, Retransmit with wait, Initialising without BC frame, Initialising with BC frame, Initial.
#[derive(Clone, Copy)]
pub enum State {
    S1,
    S2,
    S3,
    S4,
    S5,
    S6,
}

// An event of table 7-8 by its number there: E1 to E46 and E101 to E104.
#[derive(Clone, Copy, Debug, PartialEq, Eq)]
pub enum Event {
    E1 = 1,
    E2,
    E3,
    E4,
    E5,
    E6,
    E7,
    E8,
    E9,
    E10,
    E11,
    E12,
    E13,
    E14,
    E15,
    E16,
    E17,
    E18,
    E19,
    E20,
    E21,
    E22,
    E23,
    E24,
    E25,
    E26,
    E27,
    E28,
    E29,
    E30,
    E31,
    E32,
    E33,
    E34,
    E35,
    E36,
    E37,
    E38,
    E39,
    E40,
    E41,
    E42,
    E43,
    E44,
    E45,
    E46,
    E101 = 101,
    E102,
    E103,
    E104,
}

// The events in the order of their numbers.
const EVENTS: [Event; 50] = [
    Event::E1,
    Event::E2,
    Event::E3,
    Event::E4,
    Event::E5,
    Event::E6,
    Event::E7,
    Event::E8,
    Event::E9,
    Event::E10,
    Event::E11,
    Event::E12,
    Event::E13,
    Event::E14,
    Event::E15,
    Event::E16,
    Event::E17,
    Event::E18,
    Event::E19,
    Event::E20,
    Event::E21,
    Event::E22,
    Event::E23,
    Event::E24,
    Event::E25,
    Event::E26,
    Event::E27,
    Event::E28,
    Event::E29,
    Event::E30,
    Event::E31,
    Event::E32,
    Event::E33,
    Event::E34,
    Event::E35,
    Event::E36,
    Event::E37,
    Event::E38,
    Event::E39,
    Event::E40,
    Event::E41,
    Event::E42,
    Event::E43,
    Event::E44,
    Event::E45,
    Event::E46,
    Event::E101,
    Event::E102,
    Event::E103,
    Event::E104,
];

impl Event {
    // Its number.
    pub fn number(self) -> u8
        ensures { result ≡ event_number self }
    {
        self as u8
    }

    // The event with a number, 1 to 46 or 101 to 104; any other number is no event's.
    pub fn numbered(number: u8) -> Option<Event>
        ensures { result ≡ as_code (event_of number) }
    {
        match number {
            1..=46 => Some(EVENTS[usize::from(number) - 1]),
            101..=104 => Some(EVENTS[usize::from(number) - 55]),
            _ => None,
        }
    }
}

// Table 7-4: the reason of an Alert notification.
#[derive(Clone, Copy)]
pub enum Alert {
    Synch,
    Clcw,
    Limit,
    Nnr,
    Lockout,
    T1,
    Term,
    Llif,
}

// What a cell of table 7-8 asks (clause 7.9.2). The table's Accept, Reject and Confirm answer whatever the event brought: a directive (Accept,
// Reject, Confirm), an AD unit (RejectAd) or a BD unit (AcceptBd, RejectBd).
#[derive(Clone, Copy)]
pub enum Action {
    Ignore,
    Accept,
    Reject,
    Confirm,
    RejectAd,
    AcceptBd,
    RejectBd,
    AddToWaitQueue,
    LookForFdu,
    LookForDirective,
    RemoveAcknowledgedFrames,
    InitiateAdRetransmission,
    InitiateBcRetransmission,
    ReleaseBcFrame,
    CancelTimer,
    StartTimer,
    // With its reason.
    Alert(Alert),
    Initialise,
    TransmitUnlock,
    TransmitSetVr,
    TransmitBd,
    // SS := n.
    SetSuspendState(u8),
    Suspend,
    Resume,
    // V(S) := V*, NN(R) := V*, and the directives' settings.
    SetVs,
    SetNnr,
    SetK,
    SetT1Initial,
    SetTransmissionLimit,
    SetTimeoutType,
    // AD_Out_Flag = Ready and so on.
    AdOutReady,
    BcOutReady,
    BdOutReady,
}

// A response to a request (AD unit, BD unit) or to a directive; DenyDirective is the Negative Confirm. The confirms of AD units, positive and
// negative, are the two runs of units.
#[derive(Clone, Copy)]
pub enum Response {
    AcceptAdUnit,
    RejectAdUnit,
    AcceptBdUnit,
    RejectBdUnit,
    AcceptDirective,
    RejectDirective,
    ConfirmDirective,
    DenyDirective,
}

// An answer of the lower layer.
#[derive(Clone, Copy)]
pub enum Lower {
    AdAccept,
    AdReject,
    BcAccept,
    BcReject,
    BdAccept,
    BdReject,
}

// A run of units, by first number and count; 0 and 0 where empty.
#[derive(Clone, Copy)]
pub struct Run {
    pub number: u8,
    pub count: u8,
}
