// Lists asked of every engine and of `calls`, each answer with what was lent afterwards: three places for numbers and for ends; of 300 bytes for
// steps the first twelve, and whether the others are as they were.
use crate::words;
use lines::Unanswered;
use std::fmt::Display;
use std::io;

fn shown<T: Display>(rt: &impl Print, list: &[T]) -> io::Result<()> {
    for x in list {
        print!(rt; "{x} ")?;
    }
    Ok(())
}

// The numbers that an engine answers, and what it was lent for them.
fn numbers_by<F: FnOnce(&mut [u64]) -> Option<Result<usize, Unanswered>>>(
    rt: &impl Print,
    engine: &str,
    ask: F,
) -> io::Result<()>
    requires { F.IsAlwaysCallable ask }
{
    let mut numbers = [7u64; 3];
    print!(rt; " {engine} ")?;
    words::mine(rt, "upto ", ask(&mut numbers))?;
    shown(rt, &numbers)
}

// The numbers of a list of edges, and whether they are edges.
pub(crate) fn numbers(
    rt: &impl Print,
    block: &[u8],
    bytes: &[u8],
    from: usize,
    ends: &[usize],
) -> io::Result<()> {
    rt.write_all(bytes)?;
    numbers_by(rt, "arch", |numbers| {
        arch::number_all(block, bytes, from, ends, numbers)
    })?;
    numbers_by(rt, "rows", |numbers| {
        rows::number_all(block, bytes, from, ends, numbers)
    })?;
    numbers_by(rt, "grid", |numbers| {
        grid::number_all(block, bytes, from, ends, numbers)
    })?;
    numbers_by(rt, "calls", |numbers| {
        Some(calls::number_all(block, bytes, from, ends, numbers))
    })?;
    print!(rt; " walks ")?;
    words::checked(rt, walks::walk_all(block, bytes, from, ends))?;
    println!(rt)
}

// The edges that an engine answers, and what it was lent for them.
fn edges_by<F: FnOnce(&mut [u8], &mut [usize]) -> Option<Result<usize, Unanswered>>>(
    rt: &impl Print,
    engine: &str,
    ask: F,
) -> io::Result<()>
    requires { F.IsAlwaysCallable ask }
{
    let mut steps = [b'.'; 300];
    let mut ends = [7usize; 3];
    print!(rt; " {engine} ")?;
    words::mine(rt, "length ", ask(&mut steps, &mut ends))?;
    shown(rt, &ends)?;
    words::yes(rt, steps[12..].iter().all(|step| *step == b'.'))?;
    rt.write_all(&steps[0..12])
}

// The edges of a list of numbers.
pub(crate) fn edges(rt: &impl Print, block: &[u8], numbers: &[u64]) -> io::Result<()> {
    shown(rt, numbers)?;
    edges_by(rt, "arch", |steps, ends| {
        arch::build_all(block, numbers, steps, ends)
    })?;
    edges_by(rt, "rows", |steps, ends| {
        rows::build_all(block, numbers, steps, ends)
    })?;
    edges_by(rt, "grid", |steps, ends| {
        grid::build_all(block, numbers, steps, ends)
    })?;
    edges_by(rt, "calls", |steps, ends| {
        Some(calls::build_all(block, numbers, steps, ends))
    })?;
    println!(rt)
}

// The count by each engine.
pub(crate) fn counts(rt: &impl Print, block: &[u8]) -> io::Result<()> {
    print!(rt; "arch ")?;
    words::mine(rt, "", arch::count(block))?;
    print!(rt; "rows ")?;
    words::mine(rt, "", rows::count(block))?;
    print!(rt; "grid ")?;
    words::mine(rt, "", grid::count(block))?;
    print!(rt; "calls ")?;
    words::answer(rt, "", calls::count(block))?;
    println!(rt)
}
