// What an event tells: responses, the frame handed down, abort, Alert and Suspend notifications.
ghost use Rattle.std.specs.Prelude.{◌≡◌};
ghost use Rattle.sender_values.specs.Actions.{response_number, responses_with, respond, hand_down, abort, notify, suspend};

use crate::{Handed, LARGEST_RESPONSES, Responses, Work};
use fop::{Alert, Response};

// A response's number.
fn response_number(response: Response) -> u8
    ensures { result ≡ response_number response }
{
    match response {
        Response::AcceptAdUnit => 1,
        Response::RejectAdUnit => 2,
        Response::AcceptBdUnit => 3,
        Response::RejectBdUnit => 4,
        Response::AcceptDirective => 5,
        Response::RejectDirective => 6,
        Response::ConfirmDirective => 7,
        Response::DenyDirective => 8,
    }
}

// One response more, at the end; no more than an event can give.
fn responses_with(mut responses: Responses, number: u8) -> Responses
    ensures { result ≡ responses_with number responses }
{
    let count = usize::from(responses.count);
    if count < LARGEST_RESPONSES {
        responses.numbers[count] = number;
        responses.count += 1;
    }
    responses
}

// A response.
pub fn respond(mut work: Work, response: Response) -> Work
    ensures { result ≡ respond response work }
{
    work.told.responses = responses_with(work.told.responses, response_number(response));
    work
}

// The frame handed down.
pub fn hand_down(mut work: Work, handed: Option<Handed>) -> Work
    ensures { result ≡ hand_down handed work }
{
    work.told.handed = handed;
    work
}

// An abort request to the lower procedures.
pub fn abort(mut work: Work) -> Work
    ensures { result ≡ abort work }
{
    work.told.abort = true;
    work
}

// An Alert notification, or none.
pub fn notify(mut work: Work, alert: Option<Alert>) -> Work
    ensures { result ≡ notify alert work }
{
    work.told.alert = alert;
    work
}

// Clause 7.9.2.18, Suspend: a Suspend notification.
pub fn suspend(mut work: Work) -> Work
    ensures { result ≡ suspend work }
{
    work.told.suspended = true;
    work
}
