// Document 02, order 8: FARM-1 for up to eight virtual channels of one spacecraft. Their records lie in one lent buffer, 9 octets each (crate
// channel_octets, specs/Kept), which a caller may keep over a reset; spacecraft and pool come with each call. A buffer that is no table is refused by 12
// and stays as it is.
ghost use Rattle.std.specs.Prelude.{◌≡◌, length};
ghost use Rattle.base.specs.Outcome.{answer, after, number_of, count_of};
ghost use Rattle.pondreszi_channels.specs.Channels.{new_call, frame_call, release_call, word_call};

use pondreszi_channels::{frame_call, new_call, release_call, word_call};

// The record of a channel at its start, at the front of a lent buffer.
#[unsafe(no_mangle)]
pub extern "C" fn pondreszi_channel_new(channel: u32, window: u32, vr: u32, octets: &mut [u8]) -> u8
    ensures number { result ≡ (new_call channel window vr octets.old).number }
    ensures records { octets.new ≡ (new_call channel window vr octets.old).state }
{
    new_call(channel, window, vr, octets)
}

// The unit accepted has `count` octets from octet `first` of the frame on.
#[unsafe(no_mangle)]
pub extern "C" fn pondreszi_channels_frame(
    spacecraft: u32,
    pool: u32,
    table: &mut [u8],
    frame: &[u8],
    event: &mut u8,
    channel: &mut u8,
    unit: &mut u8,
    first: &mut u64,
    count: &mut u64,
) -> u8
    ensures number { result ≡ (frame_call spacecraft pool table.old frame.now).number }
    ensures events { event.new ≡ (frame_call spacecraft pool table.old frame.now).event }
    ensures channels { channel.new ≡ (frame_call spacecraft pool table.old frame.now).channel }
    ensures units { unit.new ≡ (frame_call spacecraft pool table.old frame.now).unit }
    ensures places { first.new ≡ (frame_call spacecraft pool table.old frame.now).first }
    ensures counts { count.new ≡ (frame_call spacecraft pool table.old frame.now).count }
    ensures tables { table.new ≡ (frame_call spacecraft pool table.old frame.now).table }
{
    frame_call(
        spacecraft, pool, table, frame, event, channel, unit, first, count,
    )
}

#[unsafe(no_mangle)]
pub extern "C" fn pondreszi_channels_release(
    spacecraft: u32,
    pool: u32,
    table: &mut [u8],
    channel: u32,
    event: &mut u8,
) -> u8
    ensures number { result ≡ (release_call spacecraft pool table.old channel).number }
    ensures events { event.new ≡ (release_call spacecraft pool table.old channel).event }
    ensures tables { table.new ≡ (release_call spacecraft pool table.old channel).state }
{
    release_call(spacecraft, pool, table, channel, event)
}

#[unsafe(no_mangle)]
pub extern "C" fn pondreszi_channels_word(
    spacecraft: u32,
    pool: u32,
    table: &[u8],
    channel: u32,
    output: &mut [u8],
    count: &mut u64,
) -> u8
    ensures number { result ≡ number_of (answer (word_call spacecraft pool table.now channel (length output.old))) }
    ensures memory { output.new ≡ after (word_call spacecraft pool table.now channel (length output.old)) output.old }
    ensures counted { count.new ≡ count_of (answer (word_call spacecraft pool table.now channel (length output.old))) }
{
    word_call(spacecraft, pool, table, channel, output, count)
}
