// Replays the records of standard input through the functions that the C exports call, a record a line, and counts what differs: RECORDS.md says
// what stands in them.
#![tactic(auto)]

use crate::calls::Lent;
use crate::record::{Fault, NUMBER_ROOM, ROOM, THIRD_ROOM};
use std::io::{self, BufRead};

mod calls;
mod record;

// How many bytes a line has at most, with its line feed, and how many lines are read.
const LINE_ROOM: usize = 16384;

const LINES: usize = 100_000;

// How many records the library gave what they say, how many it gave something else, and how many lines are no record.
#[derive(Clone, Copy, Debug, PartialEq, Eq)]
struct Tally {
    same: u64,
    differ: u64,
    none: u64,
}

// What was read of a line: all before its line feed; a part, as it has none within its room or before the input's end; or there is no line more.
#[derive(Clone, Copy, Debug, PartialEq, Eq)]
enum Line<'a> {
    Whole(&'a [u8]),
    Cut,
    End,
}

// Reads a line. No buffer of its own reads further, so that what lies behind the lines stays for whoever reads the input next.
fn read_line<'a, R: BufRead>(input: &mut R, line: &'a mut [u8]) -> io::Result<Line<'a>> {
    for len in 0..line.len() {
        let Some(byte) = input.fill_buf()?.first().copied() else {
            return Ok(if len == 0 { Line::End } else { Line::Cut });
        };
        input.consume(1);
        if byte == b'\n' {
            return Ok(Line::Whole(&line[..len]));
        }
        line[len] = byte;
    }
    Ok(Line::Cut)
}

// Says of a line what came of it, and whose record it is.
fn tell(rt: &impl Print, at: usize, what: &[u8], name: &[u8]) -> io::Result<()> {
    print!(rt; "line {at}")?;
    rt.write_all(what)?;
    rt.write_all(name)?;
    rt.write_all(b"\n")
}

// A line that was read. One that begins with a hyphen is a remark.
fn replay_line(
    rt: &impl Print,
    at: usize,
    line: &[u8],
    rooms: &mut Lent,
    tally: &mut Tally,
) -> io::Result<()> {
    if line.starts_with(b"-") {
        return Ok(());
    }
    let name = line.split(|&b| b == b'|').next().unwrap_or(b"");
    match calls::replay(line, rooms) {
        Ok(()) => {
            tally.same = tally.same.saturating_add(1);
            Ok(())
        }
        Err(Fault::Differs) => {
            tally.differ = tally.differ.saturating_add(1);
            tell(rt, at, b" differs: ", name)
        }
        Err(Fault::NoRecord) => {
            tally.none = tally.none.saturating_add(1);
            tell(rt, at, b" is no record: ", name)
        }
    }
}

// Replays every line, so many at most. A line that does not end within its room is none, and what follows it is the next.
fn replay_all<R: BufRead>(
    rt: &impl Print,
    input: &mut R,
    line: &mut [u8],
    rooms: &mut Lent,
    tally: &mut Tally,
) -> io::Result<()> {
    for at in 1..=LINES {
        match read_line(input, line)? {
            Line::Whole(whole) => replay_line(rt, at, whole, rooms, tally)?,
            Line::Cut => {
                tally.none = tally.none.saturating_add(1);
                tell(rt, at, b" is cut or too long: ", b"")?;
            }
            Line::End => return Ok(()),
        }
    }
    rt.write_all(b"what follows is not read\n")
}

fn main(rt: HostRuntime) -> io::Result<()> {
    let mut tally = Tally {
        same: 0,
        differ: 0,
        none: 0,
    };
    let mut line = [0u8; LINE_ROOM];
    let mut rooms = Lent {
        a: &mut [0; ROOM],
        b: &mut [0; ROOM],
        c: &mut [0; THIRD_ROOM],
        x: &mut [0; NUMBER_ROOM],
        y: &mut [0; NUMBER_ROOM],
        z: &mut [0; NUMBER_ROOM],
    };
    replay_all(&rt, &mut rt.reader(), &mut line, &mut rooms, &mut tally)?;
    println!(rt;
        "{} records as they say, {} differ, {} lines are no record",
        tally.same, tally.differ, tally.none
    )
}
