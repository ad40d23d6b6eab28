// The timer, the out flags, the settings, V(S), NN(R), Suspend_State, the state and the type-BC frame.
ghost use Rattle.std.specs.Prelude.{◌≡◌};
ghost use Rattle.base.specs.Modulo.{offset};
ghost use Rattle.sender_values.specs.Actions.{to_state, start_timer, cancel_timer, ad_out_ready, bc_out_ready, bd_out_ready, set_k, set_t1_initial, set_transmission_limit, set_timeout_type, set_vs, set_nnr, set_suspend_state, resumed, count_one, hold_control};

use crate::{Control, Work};
use fop::State;

// a - b modulo 256: the `offset` of table 7-8's comparisons, by name for the contracts that speak of it.
pub fn difference(a: u8, b: u8) -> u8
    ensures { result ≡ offset a b }
{
    a.wrapping_sub(b)
}

// The next state.
pub fn to_state(mut work: Work, state: State) -> Work
    ensures { result ≡ to_state state work }
{
    work.state = state;
    work
}

// Start Timer, at T1_Initial.
pub fn start_timer(mut work: Work) -> Work
    ensures { result ≡ start_timer work }
{
    work.variables.timer = work.settings.t1_initial;
    work
}

// Cancel Timer.
pub fn cancel_timer(mut work: Work) -> Work
    ensures { result ≡ cancel_timer work }
{
    work.variables.timer = 0;
    work
}

// AD_Out_Flag = Ready.
pub fn ad_out_ready(mut work: Work) -> Work
    ensures { result ≡ ad_out_ready work }
{
    work.variables.ad_out = true;
    work
}

// BC_Out_Flag = Ready.
pub fn bc_out_ready(mut work: Work) -> Work
    ensures { result ≡ bc_out_ready work }
{
    work.variables.bc_out = true;
    work
}

// BD_Out_Flag = Ready.
pub fn bd_out_ready(mut work: Work) -> Work
    ensures { result ≡ bd_out_ready work }
{
    work.variables.bd_out = true;
    work
}

// Set FOP_Sliding_Window_Width.
pub fn set_k(mut work: Work, value: u8) -> Work
    ensures { result ≡ set_k value work }
{
    work.settings.k = value;
    work
}

// Set T1_Initial.
pub fn set_t1_initial(mut work: Work, value: u16) -> Work
    ensures { result ≡ set_t1_initial value work }
{
    work.settings.t1_initial = value;
    work
}

// Set Transmission_Limit.
pub fn set_transmission_limit(mut work: Work, value: u8) -> Work
    ensures { result ≡ set_transmission_limit value work }
{
    work.settings.transmission_limit = value;
    work
}

// Set Timeout_Type.
pub fn set_timeout_type(mut work: Work, value: u8) -> Work
    ensures { result ≡ set_timeout_type value work }
{
    work.settings.timeout_type = value;
    work
}

// Set V(S) to V*(S) or V*(R).
pub fn set_vs(mut work: Work, value: u8) -> Work
    ensures { result ≡ set_vs value work }
{
    work.variables.vs = value;
    work
}

// Set NN(R) to V*(S) or V*(R).
pub fn set_nnr(mut work: Work, value: u8) -> Work
    ensures { result ≡ set_nnr value work }
{
    work.variables.nnr = value;
    work
}

// SS := value.
pub fn set_suspend_state(mut work: Work, value: u8) -> Work
    ensures { result ≡ set_suspend_state value work }
{
    work.variables.suspend_state = value;
    work
}

// Clause 7.9.2.19, Resume.
pub fn resume(work: Work) -> Work
    ensures { result ≡ resumed work }
{
    set_suspend_state(start_timer(work), 0)
}

// Transmission_Count := 1.
pub fn count_one(mut work: Work) -> Work
    ensures { result ≡ count_one work }
{
    work.variables.transmission_count = 1;
    work
}

// The type-BC frame on the sent queue, and whether it is marked.
pub fn hold_control(mut work: Work, control: Option<Control>, marked: bool) -> Work
    ensures { result ≡ hold_control control marked work }
{
    work.queues.control = control;
    work.queues.control_marked = marked;
    work
}
