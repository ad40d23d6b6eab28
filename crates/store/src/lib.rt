// Document 01, "FOP-1": the store of units that the host lends to the sender. Place i is the octets from LARGEST_UNIT * i on. The sent units
// stand there oldest first, and the unit waiting behind them; each has its length in a list of lengths.
#![tactic(auto)]

pub mod lengths;
pub mod removal;
pub mod units;

ghost use Rattle.std.specs.Prelude.{◌≡◌, leb, length};
ghost use Rattle.fop.specs.Store.{store_need};

use base::{LARGEST_K, LARGEST_UNIT};

// The sent units of the largest K, and the unit waiting. The store has a place for each.
pub const PLACES: usize = LARGEST_K as usize + 1;

// The octets of the store that a sender needs: units for its window K, or for all outstanding if more, and one waiting.
pub fn store_need(k: u16, outstanding: u8) -> usize
    ensures { result ≡ store_need k outstanding }
{
    let most = k.max(u16::from(outstanding));
    LARGEST_UNIT * (usize::from(most) + 1)
}

// Whether the lent store has them.
pub fn suffices(store: &[u8], k: u16, outstanding: u8) -> bool
    ensures { result ≡ leb (store_need k outstanding) (length store.now) }
{
    store_need(k, outstanding) <= store.len()
}
