// Document 02, order 8: one receiver of up to eight virtual channels that share a pool of AD buffers, by value: clauses 7.2.3, 7.5 and 7.9.3. Its events:
// a frame (`frames`), a release (here), a control word (`words`). Each judges the records first, 12, and answers for any value.
#![tactic(auto, using(crate::proofs::Found::position_is, crate::proofs::Found::all_is), unfolding(crate::specs::Table::table_holds, crate::specs::Table::frame_turn, crate::specs::Table::unit_part, crate::specs::Table::release_turn, crate::specs::Table::word_writing, crate::specs::Channels::frame_turn_of, crate::specs::Channels::receive_of, crate::specs::Channels::unit_part, crate::specs::Channels::release_turn_of, crate::specs::Channels::release_of, crate::specs::Channels::word_of))]

pub mod frames;
pub mod records;
mod tables;
pub mod words;

ghost use Rattle.std.specs.Prelude.{◌≡◌, ◌≤◌, is_ok, leb, None, IfOk, IfErr};
ghost use Rattle.base.specs.declared.Refusal.TheVariants.{Setting};
ghost use Rattle.channels.specs.Limits.{largest_channels};
ghost use Rattle.channels.specs.Channels.{records_in, turned_of, release_turn_of, release_of, told};
ghost use Rattle.channels.specs.Table.{turn_of};

use base::Refusal;
use farm::{AcceptedUnit, Event};
use receiver::{AT_START, Channel};

// "One receiver, up to eight channels".
pub const LARGEST_CHANNELS: usize = 8;

// "a shared pool of AD buffers, 1 to 16".
pub const LARGEST_POOL: u8 = 16;

// What stands where there is no record.
pub const NO_RECORD: Channel = Channel {
    number: 0,
    window: 2,
    held: 0,
    variables: AT_START,
};

// The receiver: its spacecraft, the size of its pool, and the records of its channels, the first `count` of eight.
// Memory is fixed (no heap), so a receiver by value keeps an array and a count; what judges the records takes the slice of them (`Table`).
#[derive(Clone, Copy)]
pub struct Channels {
    pub spacecraft: u16,
    pub pool: u8,
    pub count: usize,
    pub records: [Channel; LARGEST_CHANNELS],
}

// The records of up to eight channels that share a pool, lent, with the spacecraft and the size of the pool.
#[derive(Clone, Copy)]
pub struct Table<'t> {
    pub spacecraft: u16,
    pub pool: u8,
    pub records: &'t [Channel],
}

// An event that is done: its channel, the unit accepted, and the one record that changes, with its place.
#[derive(Clone, Copy)]
pub struct Change {
    pub event: Event,
    pub channel: u8,
    pub unit: Option<AcceptedUnit>,
    pub place: usize,
    pub next: Channel,
}

// An event that is refused and changes nothing. A frame is E9 of no channel; all else is no event.
#[derive(Clone, Copy)]
pub struct Refused {
    pub refusal: Refusal,
    pub event: Option<Event>,
}

impl From<Refusal> for Refused {
    ghost from_gives = { λ refusal r. r ≡ record { refusal = refusal; event = None } };

    fn from(refusal: Refusal) -> Refused {
        Refused {
            refusal,
            event: None,
        }
    }
}

// What an event comes to.
pub type Turn = Result<Change, Refused>;

impl Channels {
    // Its records as a table; 12 where they would be more than eight.
    fn table(&self) -> Result<Table<'_>, Refusal>
        ensures count { is_ok result ≡ leb self.now.count largest_channels }
        ensures refused { IfErr result (λ refusal. refusal ≡ Setting) }
        ensures spacecraft { IfOk result (λ t. t.spacecraft ≡ self.now.spacecraft) }
        ensures pool { IfOk result (λ t. t.pool ≡ self.now.pool) }
        ensures records { IfOk result (λ t. t.records.now ≡ records_in self.now) }
    {
        if self.count > LARGEST_CHANNELS {
            return Err(Refusal::Setting);
        }
        Ok(Table {
            spacecraft: self.spacecraft,
            pool: self.pool,
            records: &self.records[..self.count],
        })
    }

    // What a buffer release that names a channel comes to.
    pub fn release_turn(self, number: u8) -> Turn
        ensures { turn_of self.count result ≡ release_turn_of self number }
    {
        self.table()?.release_turn(number)
    }

    // A buffer release that names a channel, with the receiver next.
    pub fn release(self, number: u8) -> (Turn, Channels)
        ensures turn { turn_of self.count result.0 ≡ release_turn_of self number }
        ensures told { turned_of result ≡ release_of self number }
    {
        let turn = self.release_turn(number);
        (turn, self.after(turn))
    }

    // The receiver after an event: the one record that changes is put in its place.
    fn after(self, turn: Turn) -> Channels
        ensures { result ≡ (told (turn_of self.count turn) self).next }
    {
        let mut next = self;
        if let Ok(change) = turn
            && change.place < self.count
            && change.place < LARGEST_CHANNELS
        {
            next.records[change.place] = change.next;
        }
        next
    }
}
