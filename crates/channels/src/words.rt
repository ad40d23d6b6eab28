// Document 02, order 8: the control word of a channel.
ghost use Rattle.std.specs.Prelude.{◌≡◌, length};
ghost use Rattle.base.specs.Outcome.{answer, after};
ghost use Rattle.base.specs.Refusals.{written_answer};
ghost use Rattle.channels.specs.Table.{word_writing};
ghost use Rattle.channels.specs.Channels as channels;

use crate::records::place_of;
use crate::{Channels, Table};
use base::Refusal;

impl Table<'_> {
    // The control word of a channel, at the front of the output (E11). A refusal changes nothing.
    pub fn word(self, number: u8, out: &mut [u8]) -> Result<usize, Refusal>
        ensures answer { written_answer result ≡ answer (word_writing self.entry.spacecraft self.entry.pool self.entry.records.now number (length out.old)) }
        ensures memory { out.new ≡ after (word_writing self.entry.spacecraft self.entry.pool self.entry.records.now number (length out.old)) out.old }
    {
        if !self.holds() {
            return Err(Refusal::Setting);
        }
        let Some(place) = place_of(self.records, number) else {
            return Err(Refusal::Address);
        };
        self.records[place].word().write(out)
    }
}

impl Channels {
    // The same of a receiver by value.
    pub fn word(self, number: u8, out: &mut [u8]) -> Result<usize, Refusal>
        ensures answer { written_answer result ≡ answer (channels.word_of self number (length out.old)) }
        ensures memory { out.new ≡ after (channels.word_of self number (length out.old)) out.old }
    {
        self.table()?.word(number, out)
    }
}
