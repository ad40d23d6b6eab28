// Document 02, order 8: what is judged first, and what a release comes to.
ghost use Rattle.std.specs.Prelude.{◌≡◌, ◌≤◌, length};
ghost use Rattle.channels.specs.Limits.{largest_channels};
ghost use Rattle.channels.specs.Table.{table_holds, has_room, turn_of, release_turn};

use crate::records::{all_hold, are_distinct, held_in, place_of};
use crate::{Change, LARGEST_CHANNELS, LARGEST_POOL, Table, Turn};
use base::{LARGEST_SPACECRAFT, Refusal};
use receiver::ChannelAnswer;

impl Change {
    // The answer of a channel, whose record stands at a place.
    pub(crate) fn new(place: usize, channel: u8, answer: ChannelAnswer) -> Change
        ensures { result ≡ record { event = answer.event; channel = channel; unit = answer.unit; place = place; next = answer.next } }
    {
        let ChannelAnswer { event, unit, next } = answer;
        Change {
            event,
            channel,
            unit,
            place,
            next,
        }
    }
}

impl Table<'_> {
    // What is judged first: 12 where not.
    pub(crate) fn holds(self) -> bool
        ensures { result ≡ table_holds self.entry.spacecraft self.entry.pool self.entry.records.now }
    {
        self.spacecraft <= LARGEST_SPACECRAFT
            && (1..=LARGEST_POOL).contains(&self.pool)
            && self.records.len() <= LARGEST_CHANNELS
            && all_hold(self.records)
            && are_distinct(self.records)
            && held_in(self.records) <= usize::from(self.pool)
    }

    // Whether the pool has a free buffer.
    pub(crate) fn has_room(self) -> bool
        requires { length self.records.now ≤ largest_channels }
        ensures { result ≡ has_room self.entry.pool self.entry.records.now }
    {
        held_in(self.records) < usize::from(self.pool)
    }

    // What a buffer release that names a channel comes to.
    pub fn release_turn(self, number: u8) -> Turn
        ensures { turn_of (length self.entry.records.now) result ≡ release_turn self.entry.spacecraft self.entry.pool self.entry.records.now number }
    {
        if !self.holds() {
            return Err(Refusal::Setting.into());
        }
        let Some(place) = place_of(self.records, number) else {
            return Err(Refusal::Address.into());
        };
        let answer = self.records[place].release(self.has_room())?;
        Ok(Change::new(place, number, answer))
    }
}
