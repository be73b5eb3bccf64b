// What ./edges asks of a pack: standard input is the pack; the answer is a line for each edge, its number and the edge.
#![tactic(auto)]

ghost use Rattle.std.specs.Prelude.{◌≤◌, length, IfOk};

use pack::{Fault, Pack};
use std::io;
use std::io::Read;

// An edge as the listing prints it.
// kept: as in edgeask: no program is a dependency, and no contract of a library settles what is printed.
fn show(rt: &impl Print, edge: &[u8]) -> io::Result<()> {
    if edge.is_empty() {
        return println!(rt; "-");
    }
    rt.write_all(edge)?;
    println!(rt)
}

// The number and the edge of each entry.
fn entries(rt: &impl Print, bytes: &[u8], list: &[u64]) -> io::Result<()> {
    for (i, number) in list.iter().enumerate() {
        print!(rt; "{number} ")?;
        show(rt, pack::edge(bytes, i))?;
    }
    Ok(())
}

fn numbers(rt: &impl Print, bytes: &[u8]) -> io::Result<()> {
    let mut list = [0u64; Pack::MOST];
    match pack::number_all(bytes, &mut list) {
        Ok(count) => entries(rt, bytes, list.get(..count).unwrap_or_default()),
        Err(Fault::NotEdge(_)) => println!(rt; "refused 5"),
        Err(Fault::Refused(refusal)) => println!(rt; "refused {refusal}"),
    }
}

// Reads until the slice is full or the input ends, and answers what was read.
// kept: as in edgelist and edgeask, since no contract of a library settles what a read answers; `read_exact` fails at the end of the input, and
// `read_to_end` needs a heap.
fn read_full<'a>(from: &mut impl Read, into: &'a mut [u8]) -> io::Result<&'a [u8]>
    ensures { IfOk result (λ read. length read.now ≤ length into.old) }
{
    let mut got = 0;
    while got < into.len() {
        match from.read(&mut into[got..])? {
            0 => break,
            n => got += n,
        }
    }
    Ok(&into[..got])
}

// No pack is longer than 32,768 bytes.
fn main(rt: HostRuntime) -> io::Result<()> {
    numbers(&rt, read_full(&mut rt.reader(), &mut [0; 65536])?)
}
