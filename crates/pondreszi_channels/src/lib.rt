// Document 02, order 8: the receiver of up to eight virtual channels, as C and Rust call it. Its records lie in one lent buffer, 9 octets each (crate
// channel_octets, specs/Kept), which a caller may keep over a reset; spacecraft and pool come with each call. A buffer that is no table is refused by 12
// and stays as it is.
#![tactic(auto, unfolding(crate::specs::Channels::taking))]

ghost use Rattle.std.specs.Prelude.{◌≡◌, length};
ghost use Rattle.base.specs.Outcome.{answer, after, number_of, count_of};
ghost use Rattle.base.specs.Refusals.{refusal_number, written_answer};
ghost use Rattle.channels.specs.Table.{number_or_none};
ghost use Rattle.pondreszi_channels.specs.Channels.{at_start, start_given, taking, new_call, frame_call, release_call, word_call};

use base::Refusal;
use channel_octets::{RECORD_OCTETS, channels_in, is_table, put_record};
use channels::records::record_holds;
use channels::{Channels, NO_RECORD, Refused};
use farm::{Variables, event_number};
use pondreszi_numbers::{BEYOND, NO_CHANNEL, NO_SPACECRAFT, narrow_u8, narrow_u16, told_written};
use pondreszi_receiver::{unit_count, unit_number, unit_place};
use receiver::Channel;

// The record of a channel at its start: Open, with flags and counter zero and no unit held, as where there is no record.
fn at_start(number: u8, window: u8, vr: u8) -> Channel
    ensures { result ≡ at_start number window vr }
{
    Channel {
        number,
        window,
        variables: Variables {
            vr,
            ..NO_RECORD.variables
        },
        ..NO_RECORD
    }
}

// The record of a channel at its start, by the numbers given.
#[tactic(auto, using(crate::proofs::ChannelCalls::vr_beyond, crate::proofs::ChannelCalls::start_refused_lem, crate::proofs::ChannelCalls::start_kept_lem))]
fn started(channel: u32, window: u32, vr: u32) -> Result<Channel, Refusal>
    ensures { result ≡ start_given channel window vr }
{
    let Ok(first) = u8::try_from(vr) else {
        return Err(Refusal::Setting);
    };
    let start = at_start(
        narrow_u8(channel, NO_CHANNEL),
        narrow_u8(window, BEYOND),
        first,
    );
    if !record_holds(start) {
        return Err(Refusal::Setting);
    }
    Ok(start)
}

// The receiver by the numbers given, of the records in a lent table.
fn taken(spacecraft: u32, pool: u32, table: &[u8]) -> Result<Channels, Refusal>
    ensures { result ≡ taking spacecraft pool table.now }
{
    if !is_table(table) {
        return Err(Refusal::Setting);
    }
    let own_spacecraft = narrow_u16(spacecraft, NO_SPACECRAFT);
    Ok(channels_in(own_spacecraft, narrow_u8(pool, BEYOND), table))
}

// What an event that is refused is told as: its number, and the event where it is one.
fn told_refused(refused: Refused, event: &mut u8) -> u8
    ensures number { result ≡ refusal_number refused.refusal }
    ensures events { event.new ≡ number_or_none refused.event }
{
    *event = refused.event.map_or(0, event_number);
    refused.refusal.number()
}

// A channel at its start, its record put at the front of a lent buffer.
#[tactic(auto, using(crate::proofs::ChannelCalls::new_setting, crate::proofs::ChannelCalls::new_short, crate::proofs::ChannelCalls::new_kept_lem))]
pub fn new_call(channel: u32, window: u32, vr: u32, octets: &mut [u8]) -> u8
    ensures number { result ≡ (new_call channel window vr octets.old).number }
    ensures records { octets.new ≡ (new_call channel window vr octets.old).state }
{
    match started(channel, window, vr) {
        Ok(start) if octets.len() >= RECORD_OCTETS => {
            put_record(octets, 0, start);
            0
        }
        Ok(_) => Refusal::Room.number(),
        Err(refusal) => refusal.number(),
    }
}

// Lent octets arrive as a frame. The unit accepted has `count` octets from octet `first` of the frame on.
#[tactic(auto, using(crate::proofs::ChannelCalls::frame_refused_lem, crate::proofs::ChannelCalls::frame_done, crate::proofs::ChannelCalls::frame_not))]
pub fn frame_call(
    spacecraft: u32,
    pool: u32,
    table: &mut [u8],
    frame: &[u8],
    event: &mut u8,
    channel: &mut u8,
    unit: &mut u8,
    first: &mut u64,
    count: &mut u64,
) -> u8
    ensures number { result ≡ (frame_call spacecraft pool table.old frame.now).number }
    ensures events { event.new ≡ (frame_call spacecraft pool table.old frame.now).event }
    ensures channels { channel.new ≡ (frame_call spacecraft pool table.old frame.now).channel }
    ensures units { unit.new ≡ (frame_call spacecraft pool table.old frame.now).unit }
    ensures places { first.new ≡ (frame_call spacecraft pool table.old frame.now).first }
    ensures counts { count.new ≡ (frame_call spacecraft pool table.old frame.now).count }
    ensures tables { table.new ≡ (frame_call spacecraft pool table.old frame.now).table }
{
    *event = 0;
    *channel = 0;
    *unit = 0;
    *first = 0;
    *count = 0;
    let receiver = match taken(spacecraft, pool, table) {
        Ok(receiver) => receiver,
        Err(refusal) => return refusal.number(),
    };
    match receiver.frame_turn(frame) {
        Ok(change) => {
            *event = event_number(change.event);
            *channel = change.channel;
            *unit = unit_number(change.unit);
            *first = unit_place(change.unit);
            *count = unit_count(change.unit, frame);
            put_record(table, change.place, change.next);
            0
        }
        Err(refused) => told_refused(refused, event),
    }
}

// A buffer is given back, on a channel.
#[tactic(auto, using(crate::proofs::ChannelCalls::release_refused, crate::proofs::ChannelCalls::release_done, crate::proofs::ChannelCalls::release_not))]
pub fn release_call(
    spacecraft: u32,
    pool: u32,
    table: &mut [u8],
    channel: u32,
    event: &mut u8,
) -> u8
    ensures number { result ≡ (release_call spacecraft pool table.old channel).number }
    ensures events { event.new ≡ (release_call spacecraft pool table.old channel).event }
    ensures tables { table.new ≡ (release_call spacecraft pool table.old channel).state }
{
    *event = 0;
    let receiver = match taken(spacecraft, pool, table) {
        Ok(receiver) => receiver,
        Err(refusal) => return refusal.number(),
    };
    match receiver.release_turn(narrow_u8(channel, NO_CHANNEL)) {
        Ok(change) => {
            *event = event_number(change.event);
            put_record(table, change.place, change.next);
            0
        }
        Err(refused) => told_refused(refused, event),
    }
}

// The control word of a channel, at the front of the output.
#[tactic(auto, using(crate::proofs::ChannelCalls::word_refused, crate::proofs::ChannelCalls::word_met))]
fn write_word(
    spacecraft: u32,
    pool: u32,
    table: &[u8],
    channel: u32,
    output: &mut [u8],
) -> Result<usize, Refusal>
    ensures answer { written_answer result ≡ answer (word_call spacecraft pool table.now channel (length output.old)) }
    ensures memory { output.new ≡ after (word_call spacecraft pool table.now channel (length output.old)) output.old }
{
    taken(spacecraft, pool, table)?.word(narrow_u8(channel, NO_CHANNEL), output)
}

// The same, told by numbers.
pub fn word_call(
    spacecraft: u32,
    pool: u32,
    table: &[u8],
    channel: u32,
    output: &mut [u8],
    count: &mut u64,
) -> u8
    ensures number { result ≡ number_of (answer (word_call spacecraft pool table.now channel (length output.old))) }
    ensures memory { output.new ≡ after (word_call spacecraft pool table.now channel (length output.old)) output.old }
    ensures counted { count.new ≡ count_of (answer (word_call spacecraft pool table.now channel (length output.old))) }
{
    told_written(write_word(spacecraft, pool, table, channel, output), count)
}
