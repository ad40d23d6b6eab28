// Document 02, order 8, "then keep them in a lent table of channel records": the host lends the records of up to eight virtual channels, with the
// spacecraft and the size of the pool that they share, and an event changes one record at the most. Each function leaves the work to crate channels, and
// puts one record back. More than eight are 12, as everything else that crate channels judges first.
#![tactic(auto)]

ghost use Rattle.std.specs.Prelude.{◌≡◌, length};
ghost use Rattle.base.specs.Outcome.{answer, after};
ghost use Rattle.base.specs.Refusals.{written_answer};
ghost use Rattle.channels.specs.Table.{turn_of, records_after, frame_turn, release_turn, unit_part, word_writing};
ghost use Rattle.channel_table.specs.Taken.{few_of, empty_of, with_record};
ghost use Rattle.channel_table.specs.Changed.{Changed};

use base::Refusal;
use channels::{Channels, LARGEST_CHANNELS, NO_RECORD, Table, Turn};
use receiver::Channel;

// How many records are taken by value: all of up to eight, none of more.
pub fn few(count: usize) -> usize
    ensures { result ≡ few_of count }
{
    if count <= LARGEST_CHANNELS { count } else { 0 }
}

// No record is taken yet.
pub fn empty(spacecraft: u16, pool: u8, count: usize) -> Channels
    ensures { result ≡ empty_of spacecraft pool count }
{
    Channels {
        spacecraft,
        pool,
        count,
        records: [NO_RECORD; LARGEST_CHANNELS],
    }
}

// One more record is taken.
pub fn with_record(channels: Channels, place: usize, next: Channel) -> Channels
    ensures { result ≡ with_record channels place next }
{
    let mut all = channels;
    if place < LARGEST_CHANNELS {
        all.records[place] = next;
    }
    all
}

// The record that an event changes is put in its place; a refusal changes none.
fn put(records: &mut [Channel], turn: Turn)
    ensures { records.new ≡ records_after (turn_of (length records.old) turn) records.old }
{
    if let Ok(change) = turn
        && change.place < records.len()
    {
        records[change.place] = change.next;
    }
}

// The records come beside spacecraft and pool, and not as a `Table`, since they are lent to be changed, and a `Table` only reads them.
// Lent octets: the record of the channel that they name is put back. A frame that is refused is event E9 of no channel.
pub fn receive(records: &mut [Channel], spacecraft: u16, pool: u8, octets: &[u8]) -> Turn
    ensures answer { turn_of (length records.old) result ≡ frame_turn spacecraft pool records.old octets.now }
    ensures memory { records.new ≡ records_after (frame_turn spacecraft pool records.old octets.now) records.old }
    ensures changed { Changed (frame_turn spacecraft pool records.old octets.now) records.old records.new }
{
    let table = Table {
        spacecraft,
        pool,
        records,
    };
    let turn = table.frame_turn(octets);
    put(records, turn);
    turn
}

// A buffer release that names a channel: its record is put back.
pub fn release(records: &mut [Channel], spacecraft: u16, pool: u8, number: u8) -> Turn
    ensures answer { turn_of (length records.old) result ≡ release_turn spacecraft pool records.old number }
    ensures memory { records.new ≡ records_after (release_turn spacecraft pool records.old number) records.old }
    ensures changed { Changed (release_turn spacecraft pool records.old number) records.old records.new }
{
    let table = Table {
        spacecraft,
        pool,
        records,
    };
    let turn = table.release_turn(number);
    put(records, turn);
    turn
}

// The unit that lent octets bring: the frame's data part where it is accepted, else empty. It is asked for before they are received, since that changes a
// record.
pub fn unit<'r, 'o>(records: &'r [Channel], spacecraft: u16, pool: u8, octets: &'o [u8]) -> &'o [u8]
    ensures { result.now ≡ unit_part spacecraft pool records.now octets.now }
{
    let table = Table {
        spacecraft,
        pool,
        records,
    };
    table.unit(octets)
}

// The control word of a channel, at the front of the output (E11). A refusal changes nothing.
pub fn word(
    records: &[Channel],
    spacecraft: u16,
    pool: u8,
    number: u8,
    out: &mut [u8],
) -> Result<usize, Refusal>
    ensures answer { written_answer result ≡ answer (word_writing spacecraft pool records.now number (length out.old)) }
    ensures memory { out.new ≡ after (word_writing spacecraft pool records.now number (length out.old)) out.old }
{
    let table = Table {
        spacecraft,
        pool,
        records,
    };
    table.word(number, out)
}
