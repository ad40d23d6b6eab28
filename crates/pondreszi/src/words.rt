// Control words (clause 6.3). Flags cross as 1 or 0; any number but 0 given for a flag is taken as set.
ghost use Rattle.std.specs.Prelude.{◌≡◌, length};
ghost use Rattle.base.specs.Outcome.{answer, after, number_of, count_of};
ghost use Rattle.clcw.specs.Clcw.{writing};
ghost use Rattle.base.specs.Refusals.{result_number};
ghost use Rattle.clcw.specs.Answers.{reading_of};
ghost use Rattle.pondreszi_numbers.specs.Numbers.{word_given, word_valid, word_field, status_told, rf_told, flags_told, counter_told, report_told};

use clcw::Clcw;
use pondreszi_numbers::words::told_reading;
use pondreszi_numbers::{BEYOND, NO_CHANNEL, narrow_u8, told_written, with_number};

#[unsafe(no_mangle)]
pub extern "C" fn pondreszi_clcw_write(
    channel: u32,
    lockout: u32,
    wait: u32,
    retransmit: u32,
    counter: u32,
    report: u32,
    output: &mut [u8],
    count: &mut u64,
) -> u8
    ensures number { result ≡ number_of (answer (writing (word_given channel lockout wait retransmit counter report) (length output.old))) }
    ensures memory { output.new ≡ after (writing (word_given channel lockout wait retransmit counter report) (length output.old)) output.old }
    ensures counted { count.new ≡ count_of (answer (writing (word_given channel lockout wait retransmit counter report) (length output.old))) }
{
    let judged = with_number(report, channel, NO_CHANNEL as u32);
    let own_channel = narrow_u8(judged, NO_CHANNEL);
    let farm_b_counter = narrow_u8(counter, BEYOND);
    let report_value = narrow_u8(report, 0);
    let word = Clcw {
        channel: own_channel,
        lockout: lockout != 0,
        wait: wait != 0,
        retransmit: retransmit != 0,
        counter: farm_b_counter,
        report: report_value,
    };
    let written = word.write(output);
    told_written(written, count)
}

#[unsafe(no_mangle)]
pub extern "C" fn pondreszi_clcw_read(
    octets: &[u8],
    channel: u32,
    valid: &mut u8,
    status: &mut u8,
    rf: &mut u8,
    flags: &mut u8,
    counter: &mut u8,
    report: &mut u8,
) -> u8
    ensures number { result ≡ result_number (reading_of octets.now channel) }
    ensures validity { valid.new ≡ word_valid (reading_of octets.now channel) }
    ensures statuses { status.new ≡ word_field status_told (reading_of octets.now channel) }
    ensures radio { rf.new ≡ word_field rf_told (reading_of octets.now channel) }
    ensures flagged { flags.new ≡ word_field flags_told (reading_of octets.now channel) }
    ensures counters { counter.new ≡ word_field counter_told (reading_of octets.now channel) }
    ensures reports { report.new ≡ word_field report_told (reading_of octets.now channel) }
{
    let own_channel = narrow_u8(channel, NO_CHANNEL);
    let reading = Clcw::read(octets, own_channel);
    told_reading(reading, valid, status, rf, flags, counter, report)
}
