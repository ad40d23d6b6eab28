// Document 01, "FOP-1": the units confirmed leave the store, and their lengths the lengths.
ghost use Rattle.std.specs.Prelude.{◌≡◌, ◌-◌};
ghost use Rattle.store.specs.Places.{without};
ghost use Rattle.store.specs.Slid.{slid};
ghost use Rattle.sender_values.specs.Actions.{units_held};

use sender_state::units_held;
use sender_values::Queues;
use store::PLACES;
use store::lengths::slide_lengths;
use store::removal::remove_units;

// The units that stay in the store where the `count` oldest leave it.
fn units_staying(queues: Queues, count: u8) -> u16
    ensures { result ≡ units_held queues.sent queues.waiting - count }
{
    units_held(queues.sent, queues.waiting).saturating_sub(u16::from(count))
}

// Removes the `count` oldest units from the store; the others of these queues move down.
pub fn remove_oldest(store: &mut [u8], lengths: &[u16], queues: Queues, count: u8)
    ensures { store.new ≡ without lengths.now count (units_held queues.sent queues.waiting - count) store.old }
{
    remove_units(store, lengths, count, units_staying(queues, count));
}

// The lengths where the `count` oldest units leave the store.
pub fn lengths_left(mut lengths: [u16; PLACES], count: u8) -> [u16; PLACES]
    ensures { result ≡ slid count lengths }
{
    if count > 0 {
        slide_lengths(&mut lengths, usize::from(count));
    }
    lengths
}
