// Clause 6.3: what the reader of control words answered, by numbers. Flags go out as 1 or 0.
ghost use Rattle.std.specs.Prelude.{◌≡◌};
ghost use Rattle.base.specs.Refusals.{result_number};
ghost use Rattle.pondreszi_numbers.specs.Numbers.{word_valid, word_field, status_told, rf_told, flags_told, counter_told, report_told};

use base::Refusal;
use clcw::ReceivedWord;

// A word that was read, by its fields as numbers.
fn put_word(
    received: ReceivedWord,
    status: &mut u8,
    rf: &mut u8,
    flags: &mut u8,
    counter: &mut u8,
    report: &mut u8,
)
    ensures statuses { status.new ≡ status_told received }
    ensures radio { rf.new ≡ rf_told received }
    ensures flagged { flags.new ≡ flags_told received }
    ensures counters { counter.new ≡ counter_told received }
    ensures reports { report.new ≡ report_told received }
{
    let word = received.word;
    *status = received.status;
    *rf = u8::from(received.no_rf) * 2 + u8::from(received.no_bit_lock);
    *flags = u8::from(word.lockout) * 4 + u8::from(word.wait) * 2 + u8::from(word.retransmit);
    *counter = word.counter;
    *report = word.report;
}

// What the reader answered, by its number, whether it is a valid word, and its fields; 0 for what there is none of.
pub fn told_reading(
    reading: Result<Option<ReceivedWord>, Refusal>,
    valid: &mut u8,
    status: &mut u8,
    rf: &mut u8,
    flags: &mut u8,
    counter: &mut u8,
    report: &mut u8,
) -> u8
    ensures number { result ≡ result_number reading }
    ensures validity { valid.new ≡ word_valid reading }
    ensures statuses { status.new ≡ word_field status_told reading }
    ensures radio { rf.new ≡ word_field rf_told reading }
    ensures flagged { flags.new ≡ word_field flags_told reading }
    ensures counters { counter.new ≡ word_field counter_told reading }
    ensures reports { report.new ≡ word_field report_told reading }
{
    *valid = 0;
    *status = 0;
    *rf = 0;
    *flags = 0;
    *counter = 0;
    *report = 0;
    match reading {
        Ok(Some(received)) => {
            *valid = 1;
            put_word(received, status, rf, flags, counter, report);
            0
        }
        Ok(None) => 0,
        Err(refusal) => refusal.number(),
    }
}
