// The oldest units removed from the store: the others move down, of each only its own octets.
ghost use Rattle.std.specs.Prelude.{◌≡◌};
ghost use Rattle.store.specs.Places.{moved_down, without};

use crate::units::unit_at;
use base::LARGEST_UNIT;

// Moves one unit down by `count` places, to place i. Its octets are put as a whole, since `copy_within` takes one after another; that is left for
// a length that reaches from the new place into the old one, which no sender keeps.
fn move_unit(store: &mut [u8], lengths: &[u16], count: u8, i: u16)
    ensures { store.new ≡ moved_down lengths.now count i store.old }
{
    let place = usize::from(count) + usize::from(i);
    let octets = unit_at(store, lengths, place).len();
    let from = LARGEST_UNIT * place;
    let to = LARGEST_UNIT * usize::from(i);
    if octets == 0 {
        return;
    }
    if octets <= from - to {
        let (front, rest) = store.split_at_mut(from);
        memory::put(front, to, &rest[..octets]);
        return;
    }
    store.copy_within(from..from + octets, to);
}

// Removes the `count` oldest units from the store; the `staying` units behind them move down, the oldest first.
// The places are counted: each unit goes from one place of the same memory to another.
pub fn remove_units(store: &mut [u8], lengths: &[u16], count: u8, staying: u16)
    ensures { store.new ≡ without lengths.now count staying store.old }
{
    if count > 0 {
        for i in 0..staying {
            move_unit(store, lengths, count, i);
        }
    }
}
