// Clauses 7.2.2 and 7.8, document 01, "FOP-1": the frame that the sender hands down. Its unit is the one offered or one out of the lent store,
// and the frame is written into the lent output. The unit offered and the store are judged here, and the units confirmed leave the store.
#![tactic(auto, unfolding(crate::specs::Frames::handed_writing))]

pub mod units;

ghost use Rattle.std.specs.Prelude.{◌≡◌, ◌+◌, ◌≤◌, length, OnOk};
ghost use Rattle.base.specs.Limits.{largest_unit};
ghost use Rattle.base.specs.Outcome.{answer, after};
ghost use Rattle.base.specs.Refusals.{result_number, written_answer};
ghost use Rattle.store.specs.Places.{unit_at};
ghost use Rattle.sender_frames.specs.Frames.{request_refusal, handed_writing, place_handed, unit_offered};

use base::{LARGEST_UNIT, Refusal};
use frame_writer::{write_ad, write_bd, write_set_vr, write_unlock};
use sender_values::{Handed, SenderState, Settings, Work};
use store::suffices;
use store::units::unit_at;

// Whether a request is taken: refused where its unit is too short or too long, then where the lent store is too short.
pub fn request_refusal(sender: SenderState, unit: &[u8], store: &[u8]) -> Result<(), Refusal>
    ensures number { result_number result ≡ request_refusal sender unit.now store.now }
    ensures fits { OnOk result (length unit.now ≤ largest_unit) }
{
    if !(1..=LARGEST_UNIT).contains(&unit.len()) {
        return Err(Refusal::Length);
    }
    if !suffices(store, u16::from(sender.settings.k), sender.queues.sent) {
        return Err(Refusal::Room);
    }
    Ok(())
}

// The place of the unit that is handed down.
fn place_handed(handed: Option<Handed>) -> u8
    ensures { result ≡ place_handed handed }
{
    match handed {
        Some(Handed::Ad { place, .. }) => place,
        _ => 0,
    }
}

// The place at which that unit stood before `count` units left the store.
fn place_before(handed: Option<Handed>, count: u8) -> usize
    ensures { result ≡ place_handed handed + count }
{
    usize::from(place_handed(handed)) + usize::from(count)
}

// Writes the frame handed down, if any; `unit` is that of an AD or BD frame.
pub fn write_handed(
    settings: Settings,
    handed: Option<Handed>,
    unit: &[u8],
    output: &mut [u8],
) -> Result<usize, Refusal>
    ensures answer { written_answer result ≡ answer (handed_writing settings handed unit.now (length output.old)) }
    ensures memory { output.new ≡ after (handed_writing settings handed unit.now (length output.old)) output.old }
{
    let Settings {
        spacecraft,
        channel,
        ..
    } = settings;
    match handed {
        None => Ok(0),
        Some(Handed::Ad { number, .. }) => write_ad(spacecraft, channel, number, unit, output),
        Some(Handed::Bd) => write_bd(spacecraft, channel, unit, output),
        Some(Handed::Unlock) => write_unlock(spacecraft, channel, output),
        Some(Handed::SetVr(value)) => write_set_vr(spacecraft, channel, value, output),
    }
}

// Writes the frame handed down, of the unit at a place of the store.
fn write_stored(
    settings: Settings,
    handed: Option<Handed>,
    place: usize,
    lengths: &[u16],
    store: &[u8],
    output: &mut [u8],
) -> Result<usize, Refusal>
    ensures answer { written_answer result ≡ answer (handed_writing settings handed (unit_at lengths.now place store.now) (length output.old)) }
    ensures memory { output.new ≡ after (handed_writing settings handed (unit_at lengths.now place store.now) (length output.old)) output.old }
{
    write_handed(settings, handed, unit_at(store, lengths, place), output)
}

// Writes the frame that an event hands down which offers no unit: of the unit that stood behind the units that the event confirms.
pub fn write_unit_before(
    settings: Settings,
    lengths: &[u16],
    work: Work,
    store: &[u8],
    output: &mut [u8],
) -> Result<usize, Refusal>
    ensures answer { written_answer result ≡ answer (handed_writing settings work.told.handed (unit_at lengths.now (place_handed work.told.handed + work.told.confirmed.count) store.now) (length output.old)) }
    ensures memory { output.new ≡ after (handed_writing settings work.told.handed (unit_at lengths.now (place_handed work.told.handed + work.told.confirmed.count) store.now) (length output.old)) output.old }
{
    let handed = work.told.handed;
    let place = place_before(handed, work.told.confirmed.count);
    write_stored(settings, handed, place, lengths, store, output)
}

// Writes the frame that an AD request hands down: of the unit offered, or of an older unit that is marked.
pub fn write_offered(
    sender: SenderState,
    work: Work,
    unit: &[u8],
    store: &[u8],
    output: &mut [u8],
) -> Result<usize, Refusal>
    ensures answer { written_answer result ≡ answer (handed_writing sender.settings work.told.handed (unit_offered sender work unit.now store.now) (length output.old)) }
    ensures memory { output.new ≡ after (handed_writing sender.settings work.told.handed (unit_offered sender work unit.now store.now) (length output.old)) output.old }
{
    let handed = work.told.handed;
    let place = place_handed(handed);
    if place == sender.queues.sent {
        return write_handed(sender.settings, handed, unit, output);
    }
    write_stored(
        sender.settings,
        handed,
        usize::from(place),
        &sender.lengths,
        store,
        output,
    )
}
