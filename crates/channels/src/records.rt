// Document 02, order 8: the records of a receiver's channels, and what is judged of them first.
ghost use Rattle.std.specs.Prelude.{◌≡◌, ◌≤◌, length, ◌==◌};
ghost use Rattle.std.specs.List.{position, list_all};
ghost use Rattle.channels.specs.Limits.{largest_channels};
ghost use Rattle.channels.specs.Table.{is_in, place_of, distinct, held_in, record_holds, all_hold};

use base::LARGEST_CHANNEL;
use receiver::Channel;

// A record within document 01's limits, its flags those of its state.
pub fn record_holds(channel: Channel) -> bool
    ensures { result ≡ record_holds channel }
{
    channel.number <= LARGEST_CHANNEL
        && channel.window % 2 == 0
        && channel.window >= 2
        && channel.flags_agree()
        && channel.variables.counter < 4
}

// The place of the first record for a channel.
pub(crate) fn place_of(records: &[Channel], number: u8) -> Option<usize>
    ensures { result ≡ position (λ channel. channel.number == number) records.now }
{
    records.iter().position(|channel| channel.number == number)
}

// The AD units that all of them hold.
pub(crate) fn held_in(records: &[Channel]) -> usize
    requires { length records.now ≤ largest_channels }
    ensures { result ≡ held_in records.now }
{
    records
        .iter()
        .map(|channel| usize::from(channel.held))
        .sum()
}

// Each is a record that some receiver has.
pub(crate) fn all_hold(records: &[Channel]) -> bool
    ensures { result ≡ list_all record_holds records.now }
{
    records.iter().all(|channel| record_holds(*channel))
}

// No two are for one channel.
pub(crate) fn are_distinct(records: &[Channel]) -> bool
    ensures { result ≡ distinct records.now }
{
    match records {
        [] => true,
        [first, rest @ ..] => place_of(rest, first.number).is_none() && are_distinct(rest),
    }
}
