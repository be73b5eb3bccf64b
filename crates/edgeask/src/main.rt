// One question of ./edges: standard input is its letter, the job block, and the edge or the number; the answer is one line.
#![tactic(auto)]

ghost use Rattle.std.specs.Prelude.{◌≤◌, length, IfOk};

use job::Refusal;
use lines::Line;
use std::fmt::Display;
use std::io;
use std::io::Read;

fn refused(rt: &impl Print, refusal: Refusal) -> io::Result<()> {
    println!(rt; "refused {refusal}")
}

fn line<T: Display + Drop>(rt: &impl Print, answer: Result<T, Refusal>) -> io::Result<()> {
    match answer {
        Ok(value) => println!(rt; "{value}"),
        Err(refusal) => refused(rt, refusal),
    }
}

// An edge as the listing prints it.
// kept: as in packask: no program is a dependency, and no contract of a library settles what is printed.
fn show(rt: &impl Print, edge: &[u8]) -> io::Result<()> {
    if edge.is_empty() {
        return println!(rt; "-");
    }
    rt.write_all(edge)?;
    println!(rt)
}

fn build(rt: &impl Print, block: &[u8], number: u64) -> io::Result<()> {
    let mut out = [0u8; Line::LONGEST];
    match calls::build(block, number, &mut out) {
        Ok(length) => show(rt, out.get(..length).unwrap_or_default()),
        Err(refusal) => refused(rt, refusal),
    }
}

// Eight bytes, the lowest first, as a number; 0 if there aren't as many.
fn number_in(bytes: &[u8]) -> u64 {
    <[u8; 8]>::try_from(bytes)
        .ok()
        .map_or(0, u64::from_le_bytes)
}

fn answer(rt: &impl Print, question: u8, block: &[u8], rest: &[u8]) -> io::Result<()> {
    match question {
        b'c' => line(rt, calls::count(block)),
        b'w' => line(rt, calls::width(block)),
        b'n' => line(rt, calls::number(block, rest)),
        _ => build(rt, block, number_in(rest)),
    }
}

// "block not 20 bytes"
fn ask(rt: &impl Print, input: &[u8]) -> io::Result<()> {
    if input.len() < 21 {
        return refused(rt, Refusal::Form);
    }
    answer(rt, input[0], &input[1..21], &input[21..])
}

// Reads until the slice is full or the input ends, and answers what was read.
// kept: as in edgelist and packask, since no contract of a library settles what a read answers; `read_exact` fails at the end of the input, and
// `read_to_end` needs a heap.
fn read_full<'a>(from: &mut impl Read, into: &'a mut [u8]) -> io::Result<&'a [u8]>
    ensures { IfOk result (λ read. length read.now ≤ length into.old) }
{
    let mut got = 0;
    while got < into.len() {
        match from.read(&mut into[got..])? {
            0 => break,
            n => got += n,
        }
    }
    Ok(&into[..got])
}

fn main(rt: HostRuntime) -> io::Result<()> {
    ask(&rt, read_full(&mut rt.reader(), &mut [0; 4096])?)
}
