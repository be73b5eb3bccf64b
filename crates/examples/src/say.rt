// Answers as lines of text.
use job::Refusal;
use lines::Line;
use std::fmt::Display;
use std::io;

// A value behind a word, or the refusal.
fn answer<T: Display + Drop>(rt: &impl Print, word: &str, r: Result<T, Refusal>) -> io::Result<()> {
    match r {
        Ok(value) => println!(rt; "{word}{value}"),
        Err(refusal) => println!(rt; "refused {refusal}"),
    }
}

pub(crate) fn count(rt: &impl Print, block: &[u8]) -> io::Result<()> {
    answer(rt, "count ", calls::count(block))
}

pub(crate) fn width(rt: &impl Print, block: &[u8]) -> io::Result<()> {
    answer(rt, "width ", calls::width(block))
}

// The edge, and its number.
pub(crate) fn number(rt: &impl Print, block: &[u8], edge: &[u8]) -> io::Result<()> {
    rt.write_all(edge)?;
    print!(rt; " ")?;
    answer(rt, "", calls::number(block, edge))
}

// The number, its edge, and the number of that edge.
pub(crate) fn build(rt: &impl Print, block: &[u8], asked: u64) -> io::Result<()> {
    let mut out = [0u8; Line::LONGEST];
    print!(rt; "{asked} ")?;
    match calls::build(block, asked, &mut out) {
        Ok(length) => number(rt, block, out.get(..length).unwrap_or_default()),
        Err(refusal) => println!(rt; "refused {refusal}"),
    }
}

// The edge of a number, with room for so many bytes, and the output afterwards.
pub(crate) fn build_into(
    rt: &impl Print,
    block: &[u8],
    number: u64,
    out: &mut [u8],
) -> io::Result<()> {
    match calls::build(block, number, out) {
        Ok(length) => print!(rt; "length {length} ")?,
        Err(refusal) => print!(rt; "refused {refusal} ")?,
    }
    rt.write_all(out)?;
    println!(rt)
}
