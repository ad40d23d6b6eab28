// Writes the CLTU of a small frame, reads it back, damages it and reads it again, and prints what each reading found.
#![tactic(auto)]

use base::Refusal;
use cltu::reader::CltuReading;
use codeblock::Mode;
use std::io;

fn main(rt: HostRuntime) -> io::Result<()> {
    // Unlock, to spacecraft 1 on virtual channel 0, with its FECF.
    let frame: [u8; 8] = [0x30, 0x01, 0x00, 0x07, 0x00, 0x00, 0x0E, 0x5D];
    octets(&rt, "frame               ", &frame)?;
    let mut sent = [0u8; 26];
    write(&rt, "written             ", &frame, &mut sent)?;
    octets(&rt, "CLTU                ", &sent)?;
    let mut back = [0u8; 14];
    read(
        &rt,
        "read back           ",
        &sent,
        Mode::Detecting,
        &mut back,
    )?;
    octets(&rt, "octets              ", &back)?;
    damage(&rt, sent)?;
    others(&rt, sent)
}

// The same CLTU with one bit of its first codeblock flipped, read in both modes, and with two.
fn damage(rt: &impl Print, sent: [u8; 26]) -> io::Result<()> {
    let mut back = [0u8; 14];
    let mut flipped = sent;
    flipped[2] ^= 0x01;
    read(
        rt,
        "one bit flipped     ",
        &flipped,
        Mode::Detecting,
        &mut back,
    )?;
    read(
        rt,
        "the same, corrected ",
        &flipped,
        Mode::Correcting,
        &mut back,
    )?;
    flipped[3] ^= 0x01;
    read(
        rt,
        "two bits, correcting",
        &flipped,
        Mode::Correcting,
        &mut back,
    )
}

// Cut before its tail sequence, and with one and then two wrong bits in its start sequence; then whole, but read into too short an output.
fn others(rt: &impl Print, sent: [u8; 26]) -> io::Result<()> {
    let mut back = [0u8; 14];
    read(
        rt,
        "cut before the tail ",
        &sent[0..18],
        Mode::Detecting,
        &mut back,
    )?;
    let mut wrong = sent;
    wrong[0] ^= 0x01;
    read(
        rt,
        "start, 1 wrong bit  ",
        &wrong,
        Mode::Detecting,
        &mut back,
    )?;
    wrong[1] ^= 0x01;
    read(
        rt,
        "start, 2 wrong bits ",
        &wrong,
        Mode::Detecting,
        &mut back,
    )?;
    let mut short = [0u8; 13];
    read(
        rt,
        "room for 13 octets  ",
        &sent,
        Mode::Detecting,
        &mut short,
    )
}

// Writes the CLTU of the frame and prints the answer.
fn write(rt: &impl Print, label: &str, frame: &[u8], output: &mut [u8]) -> io::Result<()> {
    print!(rt; "{label}")?;
    match cltu::writer::write(frame, output) {
        Ok(count) => done(rt, count)?,
        Err(refusal) => refused(rt, refusal)?,
    }
    println!(rt;)
}

// Reads the first CLTU of the input and prints the answer.
fn read(
    rt: &impl Print,
    label: &str,
    input: &[u8],
    mode: Mode,
    output: &mut [u8],
) -> io::Result<()> {
    print!(rt; "{label}")?;
    match cltu::reader::read(input, mode, output) {
        Ok(
            CltuReading {
                count,
                place,
                corrected,
            },
        ) => {
            done(rt, count)?;
            print!(rt; ", bad codeblock (the tail) at {place}, corrected {corrected}")?;
        }
        Err(refusal) => refused(rt, refusal)?,
    }
    println!(rt;)
}

fn done(rt: &impl Print, count: usize) -> io::Result<()> {
    print!(rt; " done: {count} octets")
}

// A refusal by its number and name, with the place that the first three return.
fn refused(rt: &impl Print, refusal: Refusal) -> io::Result<()> {
    let (name, place) = match refusal {
        Refusal::NoStart(place) => ("no start", Some(place)),
        Refusal::NoBlock(place) => ("no block", Some(place)),
        Refusal::NoEnd(place) => ("no end", Some(place)),
        Refusal::Length => ("length", None),
        Refusal::Room => ("room", None),
        _ => ("none of a CLTU's", None),
    };
    let number = refusal.number();
    print!(rt; " refusal {number}, {name}")?;
    if let Some(place) = place {
        print!(rt; ", at {place}")?;
    }
    Ok(())
}

// A line of octets in hexadecimal digits.
fn octets(rt: &impl Print, label: &str, s: &[u8]) -> io::Result<()> {
    print!(rt; "{label}")?;
    for x in s {
        print!(rt; " {x:02x}")?;
    }
    println!(rt;)
}
