// Document 01, "The program": what a line does to the session.
#![tactic(auto)]

ghost use Rattle.std.specs.Prelude.{◌≡◌};
ghost use Rattle.program_turns.specs.Turns.{refused_in, row_turn, first_of, later_of, turn_of};

use frame::Kind;
use program_lines::Line;
use program_rows::Output;
use receiver::{Received, Receiver};

// Document 01: the program reads no octets of a frame, so its receiver's address shows nowhere.
const SPACECRAFT: u16 = 0;

const CHANNEL: u8 = 0;

// Before the first line, behind a good SET, or behind another first line.
#[derive(Clone, Copy)]
pub enum Session {
    Fresh,
    Running(Receiver),
    Refusing,
}

// The session behind a line, and what is written for it.
#[derive(Clone, Copy)]
pub struct Turn {
    pub session: Session,
    pub output: Output,
}

fn refused(session: Session) -> Turn
    ensures { result ≡ refused_in session }
{
    Turn {
        session,
        output: Output::Refused,
    }
}

// An event's row.
fn row(received: Received) -> Turn
    ensures { result ≡ row_turn received }
{
    Turn {
        session: Session::Running(received.next),
        output: Output::Row(received.event, received.next.variables()),
    }
}

// The first line.
#[tactic(auto, unfolding(crate::specs::Turns::first_of))]
fn first(line: Line) -> Turn
    ensures { result ≡ first_of line }
{
    let Line::Set(window, vr, buffers) = line else {
        return refused(Session::Refusing);
    };
    match Receiver::new(SPACECRAFT, CHANNEL, window, vr, buffers) {
        Ok(receiver) => Turn {
            session: Session::Running(receiver),
            output: Output::Nothing,
        },
        Err(_) => refused(Session::Refusing),
    }
}

// A later line.
#[tactic(auto, unfolding(crate::specs::Turns::later_of))]
fn later(receiver: Receiver, line: Line) -> Turn
    ensures { result ≡ later_of receiver line }
{
    match line {
        Line::Ad(number) => row(receiver.arrive(Kind::Ad(number))),
        Line::Bd => row(receiver.arrive(Kind::Bd)),
        Line::Unlock => row(receiver.arrive(Kind::Unlock)),
        Line::SetVr(value) => row(receiver.arrive(Kind::SetVr(value))),
        Line::Bad => row(receiver.invalid()),
        Line::Free => match receiver.release() {
            Ok(received) => row(received),
            Err(_) => refused(Session::Running(receiver)),
        },
        Line::Set(_, _, _) | Line::Malformed => refused(Session::Running(receiver)),
    }
}

impl Session {
    // The session behind a line, and what is written for it.
    #[tactic(auto, unfolding(crate::specs::Turns::turn_of))]
    pub fn turn(self, line: Line) -> Turn
        ensures { result ≡ turn_of self line }
    {
        match self {
            Session::Fresh => first(line),
            Session::Running(receiver) => later(receiver, line),
            Session::Refusing => refused(Session::Refusing),
        }
    }
}
