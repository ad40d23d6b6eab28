// The records of virtual channels as octets (document 02, order 8), one behind the other in a lent table, so that a unit can keep them over a reset. The
// layout: specs/Kept.
#![tactic(auto)]

ghost use Rattle.std.specs.Prelude.{◌≡◌, ◌*◌, ◌≤◌, length, take};
ghost use Rattle.base.specs.Octets.{same};
ghost use Rattle.memory.specs.Placed.{placed};
ghost use Rattle.channel_table.specs.Taken.{taken_of};
ghost use Rattle.channel_octets.specs.Kept.{record_octets, octets_of, record_in, records_in, is_table};

use channel_table::{empty, few, with_record};
use channels::Channels;
use receiver::Channel;
use receiver_octets::{flags_octet, state_number, variables_in};

pub const RECORD_OCTETS: usize = 9;

// Octets 0 and 1 of every record.
const MARK: u8 = 0x43;

const LAYOUT: u8 = 1;

// A record as octets.
pub fn octets_of(channel: Channel) -> [u8; RECORD_OCTETS]
    ensures { result ≡ octets_of channel }
{
    let v = channel.variables;
    [
        MARK,
        LAYOUT,
        state_number(v.state),
        channel.number,
        channel.window,
        channel.held,
        v.vr,
        flags_octet(v),
        v.counter,
    ]
}

// The record that the first octets would hold.
fn record_in(octets: &[u8]) -> Channel
    requires { record_octets ≤ length octets.now }
    ensures { result ≡ record_in octets.now }
{
    Channel {
        number: octets[3],
        window: octets[4],
        held: octets[5],
        variables: variables_in(octets[2], octets[6], octets[7], octets[8]),
    }
}

// Whether the first octets are those of the record that they would hold: mark, layout, state and flags decide it.
fn is_record(octets: &[u8]) -> bool
    requires { record_octets ≤ length octets.now }
    ensures { result ≡ same (take record_octets octets.now) (octets_of (record_in octets.now)) }
{
    octets[0] == MARK && octets[1] == LAYOUT && (1..=3).contains(&octets[2]) && octets[7] < 8
}

// Whether octets are a table: whole records, each as it is written.
pub fn is_table(table: &[u8]) -> bool
    ensures { result ≡ is_table table.now }
{
    if table.len() % RECORD_OCTETS != 0 {
        return false;
    }
    for record in table.chunks_exact(RECORD_OCTETS) {
        if !is_record(record) {
            return false;
        }
    }
    true
}

// The receiver of the records that octets hold. Where there are more than eight, the count says so and none is read.
// The places are counted, since each record is put at its place in the array.
pub fn channels_in(spacecraft: u16, pool: u8, table: &[u8]) -> Channels
    ensures { result ≡ taken_of spacecraft pool (records_in table.now) }
{
    let count = table.len() / RECORD_OCTETS;
    let mut channels = empty(spacecraft, pool, count);
    for place in 0..few(count) {
        channels = with_record(channels, place, record_in(&table[place * RECORD_OCTETS..]));
    }
    channels
}

// A record is put at its place in a table; past the end nothing changes.
pub fn put_record(table: &mut [u8], place: usize, channel: Channel)
    ensures { table.new ≡ placed table.old (place * record_octets) (octets_of channel) }
{
    if place < table.len() / RECORD_OCTETS {
        memory::put(table, place * RECORD_OCTETS, &octets_of(channel));
    }
}
