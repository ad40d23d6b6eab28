// FECF and transfer frames (clauses 6.2 and 6.4 to 6.8).
ghost use Rattle.std.specs.Prelude.{◌≡◌, [], length};
ghost use Rattle.base.specs.Outcome.{answer, after, number_of, count_of};
ghost use Rattle.fecf.specs.Fecf.{fecf_of};
ghost use Rattle.frame.specs.declared.Kind.TheVariants.{Bd, Unlock};
ghost use Rattle.frame.specs.Frame.{writing};
ghost use Rattle.base.specs.Refusals.{result_number};
ghost use Rattle.frame.specs.Answers.{reading_of};
ghost use Rattle.pondreszi_numbers.specs.Numbers.{ad_writing, set_vr_writing, frame_kind, frame_value, frame_total, frame_field};

use pondreszi_numbers::frames::told_reading;
use pondreszi_numbers::{
    NO_CHANNEL, NO_SPACECRAFT, narrow_u8, narrow_u16, told_written, with_number,
};

#[unsafe(no_mangle)]
pub extern "C" fn pondreszi_fecf(message: &[u8]) -> u16
    ensures { result ≡ fecf_of message.now }
{
    fecf::fecf(message)
}

#[unsafe(no_mangle)]
pub extern "C" fn pondreszi_frame_write_ad(
    spacecraft: u32,
    channel: u32,
    number: u32,
    unit: &[u8],
    output: &mut [u8],
    count: &mut u64,
) -> u8
    ensures number { result ≡ number_of (answer (ad_writing spacecraft channel number unit.now (length output.old))) }
    ensures memory { output.new ≡ after (ad_writing spacecraft channel number unit.now (length output.old)) output.old }
    ensures counted { count.new ≡ count_of (answer (ad_writing spacecraft channel number unit.now (length output.old))) }
{
    let judged = with_number(number, spacecraft, NO_SPACECRAFT as u32);
    let own_spacecraft = narrow_u16(judged, NO_SPACECRAFT);
    let own_channel = narrow_u8(channel, NO_CHANNEL);
    let sequence_number = narrow_u8(number, 0);
    let written = frame_writer::write_ad(
        own_spacecraft,
        own_channel,
        sequence_number,
        unit,
        output,
    );
    told_written(written, count)
}

#[unsafe(no_mangle)]
pub extern "C" fn pondreszi_frame_write_bd(
    spacecraft: u32,
    channel: u32,
    unit: &[u8],
    output: &mut [u8],
    count: &mut u64,
) -> u8
    ensures number { result ≡ number_of (answer (writing spacecraft channel Bd unit.now (length output.old))) }
    ensures memory { output.new ≡ after (writing spacecraft channel Bd unit.now (length output.old)) output.old }
    ensures counted { count.new ≡ count_of (answer (writing spacecraft channel Bd unit.now (length output.old))) }
{
    let own_spacecraft = narrow_u16(spacecraft, NO_SPACECRAFT);
    let own_channel = narrow_u8(channel, NO_CHANNEL);
    let written = frame_writer::write_bd(own_spacecraft, own_channel, unit, output);
    told_written(written, count)
}

#[unsafe(no_mangle)]
pub extern "C" fn pondreszi_frame_write_unlock(
    spacecraft: u32,
    channel: u32,
    output: &mut [u8],
    count: &mut u64,
) -> u8
    ensures number { result ≡ number_of (answer (writing spacecraft channel Unlock [] (length output.old))) }
    ensures memory { output.new ≡ after (writing spacecraft channel Unlock [] (length output.old)) output.old }
    ensures counted { count.new ≡ count_of (answer (writing spacecraft channel Unlock [] (length output.old))) }
{
    let own_spacecraft = narrow_u16(spacecraft, NO_SPACECRAFT);
    let own_channel = narrow_u8(channel, NO_CHANNEL);
    let written = frame_writer::write_unlock(own_spacecraft, own_channel, output);
    told_written(written, count)
}

#[unsafe(no_mangle)]
pub extern "C" fn pondreszi_frame_write_set_vr(
    spacecraft: u32,
    channel: u32,
    value: u32,
    output: &mut [u8],
    count: &mut u64,
) -> u8
    ensures number { result ≡ number_of (answer (set_vr_writing spacecraft channel value (length output.old))) }
    ensures memory { output.new ≡ after (set_vr_writing spacecraft channel value (length output.old)) output.old }
    ensures counted { count.new ≡ count_of (answer (set_vr_writing spacecraft channel value (length output.old))) }
{
    let judged = with_number(value, spacecraft, NO_SPACECRAFT as u32);
    let own_spacecraft = narrow_u16(judged, NO_SPACECRAFT);
    let own_channel = narrow_u8(channel, NO_CHANNEL);
    let set_value = narrow_u8(value, 0);
    let written = frame_writer::write_set_vr(own_spacecraft, own_channel, set_value, output);
    told_written(written, count)
}

// The data field of a frame that is not refused begins at its octet 5 and has `field` octets.
#[unsafe(no_mangle)]
pub extern "C" fn pondreszi_frame_read(
    octets: &[u8],
    spacecraft: u32,
    channel: u32,
    kind: &mut u8,
    value: &mut u8,
    total: &mut u16,
    field: &mut u16,
) -> u8
    ensures number { result ≡ result_number (reading_of octets.now spacecraft channel) }
    ensures kinds { kind.new ≡ frame_kind (reading_of octets.now spacecraft channel) }
    ensures values { value.new ≡ frame_value (reading_of octets.now spacecraft channel) }
    ensures totals { total.new ≡ frame_total (reading_of octets.now spacecraft channel) }
    ensures fields { field.new ≡ frame_field (reading_of octets.now spacecraft channel) }
{
    let own_spacecraft = narrow_u16(spacecraft, NO_SPACECRAFT);
    let own_channel = narrow_u8(channel, NO_CHANNEL);
    let reading = frame::read(octets, own_spacecraft, own_channel);
    told_reading(reading, kind, value, total, field)
}
