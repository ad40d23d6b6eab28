// The lengths of the units in the store, one for each place.
ghost use Rattle.std.specs.Prelude.{◌≡◌, set, get_or};
ghost use Rattle.store.specs.Slid.{slid};

// The length of the unit at a place; 0 beyond the last place.
pub fn length_at(lengths: &[u16], place: usize) -> u16
    ensures { result ≡ get_or lengths.now place 0 }
{
    lengths.get(place).copied().unwrap_or(0)
}

// Sets the length of the unit at a place; changes nothing beyond the last place. By an index behind its test, since the library says
// nothing of a slice that is written through `get_mut`.
pub fn set_length(lengths: &mut [u16], place: usize, length: u16)
    ensures { lengths.new ≡ set lengths.old place length }
{
    if place < lengths.len() {
        lengths[place] = length;
    }
}

// Removes the first lengths: the others move down, and the last `count` stay.
pub fn slide_lengths(lengths: &mut [u16], count: usize)
    ensures { lengths.new ≡ slid count lengths.old }
{
    if count <= lengths.len() {
        lengths.copy_within(count.., 0);
    }
}
