// A unit put at its place of the store, and read there.
ghost use Rattle.std.specs.Prelude.{◌≡◌, take, drop};
ghost use Rattle.store.specs.Places.{unit_at, unit_put};

use crate::lengths::length_at;
use base::LARGEST_UNIT;

// A part of memory, cut where the memory ends.
fn part(memory: &[u8], first: usize, count: usize) -> &[u8]
    ensures { result.now ≡ take count (drop first memory.now) }
{
    let rest = &memory[first.min(memory.len())..];
    &rest[..count.min(rest.len())]
}

// The unit at a place of the store.
pub fn unit_at<'a>(store: &'a [u8], lengths: &[u16], place: usize) -> &'a [u8]
    ensures { result.now ≡ unit_at lengths.now place store.now }
{
    let count = usize::from(length_at(lengths, place));
    part(store, LARGEST_UNIT.saturating_mul(place), count)
}

// Puts a unit at a place of the store; changes nothing where it does not fit.
pub fn put_unit(store: &mut [u8], place: u8, unit: &[u8])
    ensures { store.new ≡ unit_put place unit.now store.old }
{
    memory::put(store, LARGEST_UNIT * usize::from(place), unit);
}
