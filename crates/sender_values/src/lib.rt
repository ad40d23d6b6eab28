// Clauses 7.2.2 and 7.9.2: the state of FOP-1, the sender, by value, and the actions of clause 7.9.2 on its values and on what an event tells.
#![tactic(auto)]

pub mod answers;
pub mod start;
pub mod values;

use fop::{Alert, Run, State};
use store::PLACES;

// The responses that one event can give at the most.
pub const LARGEST_RESPONSES: usize = 4;

// Timeout_Type is 0 or 1 (clause 7.2.2; document 02, order 9).
pub const LARGEST_TIMEOUT_TYPE: u8 = 1;

// Suspend_State is 0 to 4 (clause 7.2.2).
pub const LARGEST_SUSPEND_STATE: u8 = 4;

// K (FOP_Sliding_Window_Width), T1_Initial, Transmission_Limit, Timeout_Type, and the address of the frames.
#[derive(Clone, Copy)]
pub struct Settings {
    pub k: u8,
    pub t1_initial: u16,
    pub transmission_limit: u8,
    pub timeout_type: u8,
    pub spacecraft: u16,
    pub channel: u8,
}

// V(S), NN(R), the timer's ticks left (0 where it is stopped), Transmission_Count, AD_Out_Flag, BC_Out_Flag, BD_Out_Flag (true where
// Ready) and Suspend_State.
#[derive(Clone, Copy)]
pub struct Variables {
    pub vs: u8,
    pub nnr: u8,
    pub timer: u16,
    pub transmission_count: u8,
    pub ad_out: bool,
    pub bc_out: bool,
    pub bd_out: bool,
    pub suspend_state: u8,
}

// A type-BC frame on the sent queue; Set V(R) with its value.
#[derive(Clone, Copy)]
pub enum Control {
    Unlock,
    SetVr(u8),
}

// The sent queue and the wait queue. The units lie in the store, the oldest first: `sent` units on the sent queue, of which the last
// `marked` have their To_Be_Retransmitted_Flag set, and directly behind them the unit waiting. `control_marked` is the
// To_Be_Retransmitted_Flag of the type-BC frame.
#[derive(Clone, Copy)]
pub struct Queues {
    pub sent: u8,
    pub marked: u8,
    pub waiting: bool,
    pub control: Option<Control>,
    pub control_marked: bool,
}

// A frame handed down to the lower procedures: AD with its N(S) and the place of its unit in the store, BD with the unit requested.
#[derive(Clone, Copy)]
pub enum Handed {
    Ad { number: u8, place: u8 },
    Bd,
    Unlock,
    SetVr(u8),
}

// The responses in their order, each by its number. Memory is fixed (no heap), so an array and a count of those that stand.
#[derive(Clone, Copy)]
pub struct Responses {
    pub count: u8,
    pub numbers: [u8; LARGEST_RESPONSES],
}

// The state of the sender, beside its store. `lengths` has the length of each unit in the store.
#[derive(Clone, Copy)]
pub struct SenderState {
    pub state: State,
    pub settings: Settings,
    pub variables: Variables,
    pub queues: Queues,
    pub lengths: [u16; PLACES],
}

// What is told so far: the frame handed down, an abort request, an Alert notification, a Suspend notification, the responses, the units
// confirmed and denied.
#[derive(Clone, Copy)]
pub struct Told {
    pub handed: Option<Handed>,
    pub abort: bool,
    pub alert: Option<Alert>,
    pub suspended: bool,
    pub responses: Responses,
    pub confirmed: Run,
    pub denied: Run,
}

// The work on an event: the state of the sender but for its units' lengths, and what is told so far.
#[derive(Clone, Copy)]
pub struct Work {
    pub state: State,
    pub settings: Settings,
    pub variables: Variables,
    pub queues: Queues,
    pub told: Told,
}
