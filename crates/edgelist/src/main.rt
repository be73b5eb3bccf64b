// Document 01's listing program: reads a job block from standard input, and writes its listing to standard output.
#![tactic(auto)]

ghost use Rattle.std.specs.Prelude.{◌≤◌, length, IfOk};

use std::io;
use std::io::Read;

// One byte more than a block has, so that longer input shows.
const INPUT: usize = 21;

// kept: as in edgelist_cases: no program is a dependency, and no contract of a library settles what is printed.
fn print(rt: &impl Print, input: &[u8]) -> io::Result<()> {
    let mut text = [0u8; 152000];
    match listing::write(input, &mut text) {
        Ok(length) => rt.write_all(&text[..length]),
        Err(_) => unreachable!(), // no listing is longer
    }
}

// Reads until the slice is full or the input ends, and answers what was read.
// kept: as in edgeask and packask, since no contract of a library settles what a read answers; `read_exact` fails at the end of the input, and
// `read_to_end` needs a heap.
fn read_full<'a>(from: &mut impl Read, into: &'a mut [u8]) -> io::Result<&'a [u8]>
    ensures { IfOk result (λ read. length read.now ≤ length into.old) }
{
    let mut got = 0;
    while got < into.len() {
        match from.read(&mut into[got..])? {
            0 => break,
            n => got += n,
        }
    }
    Ok(&into[..got])
}

fn main(rt: HostRuntime) -> io::Result<()> {
    print(&rt, read_full(&mut rt.reader(), &mut [0; INPUT])?)
}
