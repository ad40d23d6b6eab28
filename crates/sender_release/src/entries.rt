// The queues: a unit added, the type-BC frame released.
ghost use Rattle.std.specs.Prelude.{◌≡◌};
ghost use Rattle.sender_values.specs.Actions.{add_to_wait_queue, release_bc_frame};

use sender_values::Work;
use sender_values::values::hold_control;

// Add to Wait_Queue a unit, which stands in the store behind the sent ones.
pub fn add_to_wait_queue(mut work: Work) -> Work
    ensures { result ≡ add_to_wait_queue work }
{
    work.queues.waiting = true;
    work
}

// Release type-BC frame.
pub fn release_bc_frame(work: Work) -> Work
    ensures { result ≡ release_bc_frame work }
{
    hold_control(work, None, false)
}
