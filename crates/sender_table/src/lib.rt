// Table 7-8 as data, in two forms that proofs/Cells holds to the standard, cell by cell: in the module `table` a cell's actions as the standard lists
// them, in the module `filled` five actions and no address, which is what the sender reads.
#![tactic(auto)]

pub mod filled;
pub mod table;

ghost use Rattle.std.specs.Prelude.{◌≡◌};
ghost use Rattle.fop.specs.Table.{event_of, as_code, table78, cell78};
ghost use Rattle.sender_table.specs.Cells.{place_of, column_of, asked_in, asked_by, next_named, filled_in, filled_by, cell_if, Tells, TellsFilled};

use crate::filled::{FilledCell, NOT_APPLICABLE};
use crate::table::TableCell;
use fop::{Action, Event, State};

// What a cell of table 7-8 asks in a state: its actions in their order, five, filled up with Ignore, and the next state.
#[derive(Clone, Copy)]
pub struct CellAsked {
    pub actions: [Action; 5],
    pub next: State,
}

// The place of an event's row: behind E46 comes E101.
fn place(event: Event) -> usize
    ensures { result ≡ place_of event }
{
    let number = usize::from(event.number());
    if number < 47 { number - 1 } else { number - 55 }
}

// The column of a state.
fn column(state: State) -> usize
    ensures { result ≡ column_of state }
{
    state as usize
}

// The cell of an event in a state, by rows that say what the table says; that the data's do is computed once, where they are passed.
fn cell_in(rows: &[[TableCell; 6]; 50], event: Event, state: State) -> TableCell
    requires { Tells rows.now }
    ensures { asked_in result state ≡ asked_by (cell78 (table78 event) state) state }
{
    rows[place(event)][column(state)]
}

// The cell of an event in a state. "Not Applicable" has no action and names no next state; "Ignore" has one action, and the next state is named
// where it is the state itself too.
pub fn cell(event: Event, state: State) -> TableCell
    ensures asked { asked_in result state ≡ asked_by (cell78 (table78 event) state) state }
    ensures next { result.next ≡ next_named (cell78 (table78 event) state) }
{
    let cell = cell_in(table::ROWS, event, state);
    let next = match cell.actions {
        [] => None,
        _ => Some(cell.next.unwrap_or(state)),
    };
    TableCell { next, ..cell }
}

// What a filled cell of the data asks in a state.
fn asked(cell: FilledCell, state: State) -> CellAsked
    ensures { result ≡ filled_in cell state }
{
    let (first, second, third, fourth, fifth) = cell.actions;
    let actions = [first, second, third, fourth, fifth];
    let next = cell.next.unwrap_or(state);
    CellAsked { actions, next }
}

// The filled cell of an event in a state, by rows that say what the table says, as for `cell_in`.
fn filled_cell_in(rows: &[[FilledCell; 6]; 50], event: Event, state: State) -> CellAsked
    requires { TellsFilled rows.now }
    ensures { result ≡ filled_by (cell78 (table78 event) state) state }
{
    asked(rows[place(event)][column(state)], state)
}

// What the cell of an event asks in a state, filled up to five actions.
pub fn filled_cell(event: Event, state: State) -> CellAsked
    ensures { result ≡ filled_by (cell78 (table78 event) state) state }
{
    filled_cell_in(filled::ROWS, event, state)
}

// The cell of the event with a number; a number that is no event's asks nothing and keeps the state.
pub fn cell_numbered(number: u8, state: State) -> CellAsked
    ensures { result ≡ cell_if (as_code (event_of number)) state }
{
    match Event::numbered(number) {
        Some(event) => filled_cell(event, state),
        None => asked(NOT_APPLICABLE, state),
    }
}

#[cfg(test)]
mod tests {
    use super::*;

    // Table 7-8: how many actions a cell lists, none where it is Not Applicable; for some of them which, and the next state.
    #[test]
    fn cells_as_listed(rt: HostRuntime) {
        let listed = [
            (Event::E1, State::S1, 1),
            (Event::E1, State::S4, 2),
            (Event::E2, State::S4, 0),
            (Event::E8, State::S1, 3),
            (Event::E9, State::S1, 1),
            (Event::E27, State::S6, 5),
        ];
        for (event, state, actions) in listed {
            assert_eq!(rt; cell(event, state).actions.len(), actions, "{event:?}");
        }
        assert!(rt; matches!(cell(Event::E1, State::S1).actions, [Action::Ignore]));
        assert!(rt; matches!(cell(Event::E1, State::S1).next, Some(State::S1)));
        assert!(rt;
            matches!(
                cell(Event::E1, State::S4).actions,
                [Action::Confirm, Action::CancelTimer]
            )
        );
        assert!(rt; matches!(cell(Event::E1, State::S4).next, Some(State::S1)));
        assert!(rt; matches!(cell(Event::E9, State::S1).next, Some(State::S3)));
        assert!(rt; cell(Event::E2, State::S4).next.is_none());
    }

    // Filled up, "Ignore" and "Not Applicable" ask alike, and each keeps its state.
    #[test]
    fn cells_filled_up(rt: HostRuntime) {
        let ignored = filled_cell(Event::E1, State::S1);
        let not_applicable = filled_cell(Event::E2, State::S4);
        for asked in [ignored, not_applicable] {
            assert!(rt;
                matches!(
                    asked.actions,
                    [
                        Action::Ignore,
                        Action::Ignore,
                        Action::Ignore,
                        Action::Ignore,
                        Action::Ignore
                    ]
                )
            );
        }
        assert!(rt; matches!(ignored.next, State::S1));
        assert!(rt; matches!(not_applicable.next, State::S4));
    }
}
