// Document 01, "The program": lines of events read out of octets, and a row of octets written for each.
#![tactic(auto)]

ghost use Rattle.std.specs.Prelude.{◌≡◌, ◌*◌, ◌≤◌, ◌++◌, length, drop, Ok};
ghost use Rattle.base.specs.Outcome.{answer, after};
ghost use Rattle.base.specs.Refusals.{written_answer};
ghost use Rattle.text.specs.Answers.{written};
ghost use Rattle.text.specs.Buffer.{standing};
ghost use Rattle.program_rows.specs.Rows.{row_room};
ghost use Rattle.program_console.specs.Feed.{progress, progress_of, at_start, kept_with, end_of, octet_next, octet_text, chunk_next, chunk_text, last_text, feeding, fed_next};

use base::Refusal;
use program_lines::Line;
use program_rows::ROW_ROOM;
use program_turns::{Session, Turn};
use text::{Buffer, NEWLINE};

// Octets of a line that are kept: one more than a line may have, so that a longer one still shows.
const MOST_KEPT: usize = 64;

// The session, and the line under way. No other crate can write one.
#[derive(Clone, Copy)]
pub struct Console {
    session: Session,
    line: Buffer<MOST_KEPT>,
}

// What feeding gives: the count of octets written, or 11, and the console next.
#[derive(Clone, Copy)]
pub struct Fed {
    pub written: Result<usize, Refusal>,
    pub console: Console,
}

impl Console {
    // Before any octet.
    pub fn new() -> Console
        ensures { progress_of result ≡ at_start }
    {
        Console {
            session: Session::Fresh,
            line: Buffer::new(),
        }
    }

    // The turn of the line under way, where it ends.
    #[tactic(auto, unfolding(crate::specs::Feed::end_of))]
    fn end(self) -> Turn
        ensures { result ≡ end_of (progress_of self) }
    {
        self.session.turn(Line::read(self.line.as_slice()))
    }

    // An octet more of the line under way, as long as there is room for it.
    fn keep(&mut self, octet: u8)
        ensures { progress_of self.new ≡ progress self.old.session (kept_with (standing self.old.line) octet) }
    {
        self.line.put(&[octet]);
    }

    // One octet, and the row of the line that it ends. A refusal writes nothing.
    #[tactic(auto, unfolding(crate::specs::Feed::octet_next, crate::specs::Feed::octet_text, text::specs::Answers::written))]
    fn step(&mut self, octet: u8, out: &mut [u8]) -> Result<usize, Refusal>
        ensures answer { written_answer result ≡ answer (written (octet_text (progress_of self.old) octet) (length out.old)) }
        ensures memory { out.new ≡ after (written (octet_text (progress_of self.old) octet) (length out.old)) out.old }
        ensures next { progress_of self.new ≡ octet_next (progress_of self.old) octet }
        ensures most { length (octet_text (progress_of self.old) octet) ≤ row_room }
    {
        if octet != NEWLINE {
            self.keep(octet);
            return Ok(0);
        }
        let turn = self.end();
        *self = Console {
            session: turn.session,
            line: Buffer::new(),
        };
        turn.output.write(out)
    }

    // A chunk, with room for a row for each of its octets: the count of octets written.
    fn run(&mut self, chunk: &[u8], out: &mut [u8]) -> Result<usize, Refusal>
        requires { length chunk.now * row_room ≤ length out.old }
        ensures count { result ≡ Ok (length (chunk_text (progress_of self.old) chunk.now)) }
        ensures memory { out.new ≡ chunk_text (progress_of self.old) chunk.now ++ drop (length (chunk_text (progress_of self.old) chunk.now)) out.old }
        ensures next { progress_of self.new ≡ chunk_next (progress_of self.old) chunk.now }
    {
        let mut place = 0;
        for octet in chunk {
            let count = self.step(*octet, &mut out[place..])?;
            place += count;
        }
        Ok(place)
    }

    // Takes a chunk of the input, and writes the rows of the lines ended in it. 11 where the output has less than 20 octets for
    // each octet of the chunk; a refusal changes nothing.
    #[tactic(auto, unfolding(crate::specs::Feed::feeding, crate::specs::Feed::fed_next))]
    pub fn feed(mut self, chunk: &[u8], out: &mut [u8]) -> Fed
        ensures answer { written_answer result.written ≡ answer (feeding (progress_of self) chunk.now (length out.old)) }
        ensures memory { out.new ≡ after (feeding (progress_of self) chunk.now (length out.old)) out.old }
        ensures next { progress_of result.console ≡ fed_next (progress_of self) chunk.now (length out.old) }
    {
        if out.len() / ROW_ROOM < chunk.len() {
            return Fed {
                written: Err(Refusal::Room),
                console: self,
            };
        }
        let written = self.run(chunk, out);
        Fed {
            written,
            console: self,
        }
    }

    // The end of the input: writes the row of a last line without a newline, 20 octets at the most. A refusal changes nothing.
    #[tactic(auto, unfolding(crate::specs::Feed::last_text, text::specs::Answers::written))]
    pub fn finish(self, out: &mut [u8]) -> Result<usize, Refusal>
        ensures answer { written_answer result ≡ answer (written (last_text (progress_of self)) (length out.old)) }
        ensures memory { out.new ≡ after (written (last_text (progress_of self)) (length out.old)) out.old }
        ensures most { length (last_text (progress_of self)) ≤ row_room }
    {
        if self.line.as_slice().is_empty() {
            return Ok(0);
        }
        self.end().output.write(out)
    }
}
