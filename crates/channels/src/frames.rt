// Document 02, order 8: a frame that arrives, and the unit that it brings.
ghost use Rattle.std.specs.Prelude.{◌≡◌, Some, length};
ghost use Rattle.base.specs.Fields.{field_at};
ghost use Rattle.farm.specs.declared.Event.TheVariants.{E9};
ghost use Rattle.frame_header.specs.Header.{virtual_channel_identifier};
ghost use Rattle.channels.specs.Table.{turn_of, frame_turn};
ghost use Rattle.channels.specs.Table as table;
ghost use Rattle.channels.specs.Channels.{frame_turn_of, receive_of, turned_of, unit_part};

use crate::records::place_of;
use crate::{Change, Channels, Refused, Table, Turn};
use base::{LARGEST_CHANNEL, Refusal};
use farm::Event;

// No frame has this channel.
const NO_CHANNEL: u8 = LARGEST_CHANNEL + 1;

// The channel that octets name, as a header has it; 0 where they end before it.
pub fn channel_of(octets: &[u8]) -> u8
    ensures { result ≡ field_at virtual_channel_identifier octets.now }
{
    match octets {
        [_, _, third, ..] => third / 4,
        _ => 0,
    }
}

impl Refused {
    // A frame that is refused.
    fn frame(refusal: Refusal) -> Refused
        ensures { result ≡ record { refusal = refusal; event = Some E9 } }
    {
        Refused {
            refusal,
            event: Some(Event::E9),
        }
    }
}

impl Table<'_> {
    // What lent octets come to. A frame for none of the channels is judged as one for a channel that no frame has, so it is refused.
    pub fn frame_turn(self, octets: &[u8]) -> Turn
        ensures { turn_of (length self.entry.records.now) result ≡ frame_turn self.entry.spacecraft self.entry.pool self.entry.records.now octets.now }
    {
        if !self.holds() {
            return Err(Refusal::Setting.into());
        }
        let number = channel_of(octets);
        let place = place_of(self.records, number);
        let address = if place.is_some() { number } else { NO_CHANNEL };
        match (frame::read(octets, self.spacecraft, address), place) {
            (Err(refusal), _) => Err(Refused::frame(refusal)),
            (Ok(fields), Some(place)) => {
                let answer = self.records[place].arrive_with(fields.kind, self.has_room());
                Ok(Change::new(place, number, answer))
            }
            (Ok(_), None) => unreachable!(),
        }
    }

    // The unit that lent octets bring: the frame's data part where it is accepted, else empty.
    pub fn unit<'o>(self, octets: &'o [u8]) -> &'o [u8]
        ensures { result.now ≡ table.unit_part self.entry.spacecraft self.entry.pool self.entry.records.now octets.now }
    {
        match self.frame_turn(octets) {
            Ok(
                Change {
                    unit: Some(_),
                    channel,
                    ..
                },
            ) => frame::data_field(octets, self.spacecraft, channel),
            _ => &octets[..0],
        }
    }
}

impl Channels {
    // What lent octets come to.
    pub fn frame_turn(self, octets: &[u8]) -> Turn
        ensures { turn_of self.count result ≡ frame_turn_of self octets.now }
    {
        self.table()?.frame_turn(octets)
    }

    // Lent octets, with the receiver next.
    pub fn receive(self, octets: &[u8]) -> (Turn, Channels)
        ensures turn { turn_of self.count result.0 ≡ frame_turn_of self octets.now }
        ensures told { turned_of result ≡ receive_of self octets.now }
    {
        let turn = self.frame_turn(octets);
        (turn, self.after(turn))
    }

    // The unit that lent octets bring: the frame's data part where it is accepted, else empty.
    pub fn unit<'o>(self, octets: &'o [u8]) -> &'o [u8]
        ensures { result.now ≡ unit_part self octets.now }
    {
        match self.table() {
            Ok(table) => table.unit(octets),
            Err(_) => &octets[..0],
        }
    }
}
