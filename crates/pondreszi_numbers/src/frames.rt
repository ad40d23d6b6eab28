// Clauses 6.2 and 6.4 to 6.8: what the reader of frames answered, by numbers.
ghost use Rattle.std.specs.Prelude.{◌≡◌};
ghost use Rattle.base.specs.Refusals.{result_number};
ghost use Rattle.pondreszi_numbers.specs.Numbers.{kind_number, kind_value, frame_kind, frame_value, frame_total, frame_field};

use base::Refusal;
use frame::{Fields, Kind};

// The kind of a frame as a number, and what it carries.
fn kind_number(kind: Kind) -> u8
    ensures { result ≡ kind_number kind }
{
    match kind {
        Kind::Ad(_) => 1,
        Kind::Bd => 2,
        Kind::Unlock => 3,
        Kind::SetVr(_) => 4,
    }
}

fn kind_value(kind: Kind) -> u8
    ensures { result ≡ kind_value kind }
{
    match kind {
        Kind::Ad(number) => number,
        Kind::Bd | Kind::Unlock => 0,
        Kind::SetVr(value) => value,
    }
}

// What the reader answered, by its number, and the fields of the frame; 0 for what there is none of.
pub fn told_reading(
    reading: Result<Fields, Refusal>,
    kind: &mut u8,
    value: &mut u8,
    total: &mut u16,
    field: &mut u16,
) -> u8
    ensures number { result ≡ result_number reading }
    ensures kinds { kind.new ≡ frame_kind reading }
    ensures values { value.new ≡ frame_value reading }
    ensures totals { total.new ≡ frame_total reading }
    ensures fields { field.new ≡ frame_field reading }
{
    *kind = 0;
    *value = 0;
    *total = 0;
    *field = 0;
    match reading {
        Ok(fields) => {
            *kind = kind_number(fields.kind);
            *value = kind_value(fields.kind);
            *total = fields.total;
            *field = fields.field;
            0
        }
        Err(refusal) => refusal.number(),
    }
}
