// Replays the stored list: each record on standard input goes through its call, and its reply is
// compared with the one stored. Writes the label of each that differs, then the counts.
//
// The list: lines that start with `#`, then records `sheet WORDS ROOM REFUSAL SHEETBYTES ANSWERBYTES LABEL`, byte 10, the sheet, the
// answer, byte 10; `pages` in place of `sheet` where the answer is laid out in pages.
#![tactic(auto)]

mod call; // call.rt: one record through its call
mod reader; // reader.rt: what is left of the list, read from its front

ghost use Rattle.std.specs.Prelude.{◌≤◌, length, IfOk};

use call::Record;
use reader::Reader;
use std::io::{Read, Write};
use std::{fmt, io};

// How many records were replayed and agree, differ, or were not replayed.
#[derive(Clone, Copy, Debug, Default, PartialEq, Eq)]
struct Tally {
    agreeing: u64,
    different: u64,
    skipped: u64,
}

impl Tally {
    // With one record more.
    fn add(&mut self, agrees: Option<bool>) {
        let count = match agrees {
            Some(true) => &mut self.agreeing,
            Some(false) => &mut self.different,
            None => &mut self.skipped,
        };
        *count = count.wrapping_add(1);
    }
}

impl fmt::Display for Tally {
    fn fmt<W: fmt::Write>(&self, f: &mut fmt::Formatter<W>) -> fmt::Result {
        let replayed = self.agreeing.wrapping_add(self.different);
        let Tally {
            skipped,
            different,
            ..
        } = *self;
        write!(
            f,
            "replayed {replayed}, skipped {skipped}, different {different}"
        )
    }
}

// Reads until the room is full or the input ends, and gives how many bytes it put at the start: the library has no such read.
fn read_full<R: Read>(input: &mut R, room: &mut [u8]) -> io::Result<usize>
    ensures { IfOk result (λ n. n ≤ length room.new) }
{
    let mut done: usize = 0;
    while done < room.len() {
        let count = input.read(&mut room[done..])?;
        if count == 0 {
            break;
        }
        done += count;
    }
    Ok(done)
}

// Writes the label of a record that differs.
fn report<W: Write>(out: &mut W, stored: &Record<'_>) -> io::Result<()> {
    out.write_all(b"different: ")?;
    out.write_all(stored.label)
}

// Says that a record of the list is not in form.
fn left_off<W: Write>(out: &mut W, tally: Tally) -> io::Result<Tally> {
    out.write_all(b"not a record: the rest is not replayed\n")?;
    Ok(tally)
}

// Replays every record. Where one ends is known when it is read, and what is not a record ends the replay: no iterator is plainer.
fn replay_all<W: Write>(
    out: &mut W,
    list: &[u8],
    work: &mut [u32],
    output: &mut [u8],
) -> io::Result<Tally> {
    let mut tally = Tally::default();
    let mut reader = Reader { rest: list };
    reader.skip_head();
    while !reader.rest.is_empty() {
        let Some(stored) = reader.record() else {
            return left_off(out, tally);
        };
        let agrees = stored.replay(work, output);
        if agrees == Some(false) {
            report(out, &stored)?;
        }
        tally.add(agrees);
    }
    Ok(tally)
}

fn main(rt: HostRuntime) -> io::Result<()> {
    // Room for the list, and at least one byte more.
    let mut list = [0u8; 800000];
    // The words to lend, small enough for a stack of 8 MB. A record that lends more is skipped.
    let mut work = [0u32; 1441792];
    let mut output = [0u8; 65536];
    let mut input = rt.stdin();
    let n = read_full(&mut input, &mut list)?;
    if n == list.len() {
        return println!(rt; "the list is too long");
    }
    let mut out = rt.stdout();
    let tally = replay_all(&mut out, &list[..n], &mut work, &mut output)?;
    println!(rt; "{tally}")
}
