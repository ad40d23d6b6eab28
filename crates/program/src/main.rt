// Reads lines of events from standard input, and writes a row for each (document 01, "The program"). What is written is
// that of crate program_console: see its proofs/Program. Here are only the reading and the writing.
#![tactic(auto)]

ghost use Rattle.std.specs.Prelude.{◌≤◌, length, IsOkAnd};

use base::Refusal;
use program_console::Console;
use program_rows::ROW_ROOM;
use std::io;
use std::io::{Read, Write};

// Octets read at once.
const CHUNK: usize = 2048;

// Octets of output: a row's for each octet read.
const ROOM: usize = CHUNK * ROW_ROOM;

// The program's memory: what is read at once, and what is written for it.
#[derive(Drop)]
struct Memory {
    input: [u8; CHUNK],
    output: [u8; ROOM],
}

// Writes what stands at the front of the output. Nothing is ever refused here for want of room.
fn emit<W: Write>(written: Result<usize, Refusal>, output: &[u8], to: &mut W) -> io::Result<()>
    requires { IsOkAnd written (λ count. count ≤ length output.now) }
{
    match written {
        Ok(count) => to.write_all(&output[..count]),
        Err(_) => unreachable!(),
    }
}

// One read of the input, and the writing of its rows: the console behind them, or none where the input has ended.
fn some<R: Read, W: Write>(
    console: Console,
    from: &mut R,
    to: &mut W,
    memory: &mut Memory,
) -> io::Result<Option<Console>> {
    let count = from.read(&mut memory.input)?;
    if count == 0 {
        return Ok(None);
    }
    let fed = console.feed(&memory.input[..count], &mut memory.output);
    emit(fed.written, &memory.output, to)?;
    Ok(Some(fed.console))
}

// All of the input. A proved loop has to end, so the reads are counted up to a number that no run reaches.
fn all<R: Read, W: Write>(from: &mut R, to: &mut W, memory: &mut Memory) -> io::Result<Console> {
    let mut console = Console::new();
    for _ in 0..u64::MAX {
        let Some(next) = some(console, from, to, memory)? else {
            break;
        };
        console = next;
    }
    Ok(console)
}

// The header, the rows, and the row of a last line without a newline.
fn run<R: Read, W: Write>(from: &mut R, to: &mut W, memory: &mut Memory) -> io::Result<()> {
    let header = program_rows::header(&mut memory.output);
    emit(header, &memory.output, to)?;
    let console = all(from, to, memory)?;
    let last = console.finish(&mut memory.output);
    emit(last, &memory.output, to)
}

fn main(rt: HostRuntime) -> io::Result<()> {
    let mut memory = Memory {
        input: [0; CHUNK],
        output: [0; ROOM],
    };
    run(&mut rt.stdin(), &mut rt.stdout(), &mut memory)
}
