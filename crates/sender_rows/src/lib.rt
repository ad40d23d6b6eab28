// Table 7-8, the rows of FOP-1, the sender, on its state by value. The table's cells are crate sender_table's.
#![tactic(auto)]

mod actions;

ghost use Rattle.std.specs.Prelude.{◌≡◌};
ghost use Rattle.sender_table.specs.Rows.{done_all, row_if, row_numbered};
ghost use Rattle.sender_table.specs.Cells.{unless_suspended};

use crate::actions::perform;
use fop::{Action, Event};
use sender_table::filled_cell;
use sender_values::Work;
use sender_values::values::to_state;

// Row E35 while suspended is that of the invalid directive, E40.
fn unless_suspended(event: Event, suspend_state: u8) -> Event
    ensures { result ≡ unless_suspended event suspend_state }
{
    match event {
        Event::E35 if suspend_state != 0 => Event::E40,
        _ => event,
    }
}

// The actions in their order.
fn perform_all(mut work: Work, actions: &[Action], value: u16) -> Work
    ensures { result ≡ done_all actions.now value work }
{
    for action in actions {
        work = perform(work, *action, value);
    }
    work
}

// The work by the row of an event, if there is one; value is N(R) or a directive's. Most ticks bring no event.
pub fn row(work: Work, event: Option<Event>, value: u16) -> Work
    ensures { result ≡ row_if event value work }
{
    let Some(event) = event else {
        return work;
    };
    let chosen = unless_suspended(event, work.variables.suspend_state);
    let asked = filled_cell(chosen, work.state);
    to_state(perform_all(work, &asked.actions, value), asked.next)
}

// The work by the row of the event with a number; a number that is no event's does nothing.
pub fn row_numbered(work: Work, number: u8, value: u16) -> Work
    ensures { result ≡ row_numbered number value work }
{
    row(work, Event::numbered(number), value)
}
