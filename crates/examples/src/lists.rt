// Lists of edges and of numbers, engine by engine, with what is lent shown afterwards.
use crate::{asked, blocks};
use std::io;

// Two edges, the second no edge, none at all, and more than there is room for.
fn strings(rt: &impl Print, block: &[u8], two: &[u8], half: usize, wrong: &[u8]) -> io::Result<()> {
    asked::numbers(rt, block, two, 0, &[half, two.len()])?;
    asked::numbers(rt, block, two, half, &[two.len()])?;
    asked::numbers(rt, block, wrong, 0, &[half, wrong.len()])?;
    asked::numbers(rt, block, two, 0, &[])?;
    asked::numbers(rt, block, two, 0, &[half, half, half, half])
}

// Two numbers, one beyond, none, and more than there is room for.
fn lists(rt: &impl Print, block: &[u8]) -> io::Result<()> {
    asked::edges(rt, block, &[1, 0])?;
    asked::edges(rt, block, &[0, 99])?;
    asked::edges(rt, block, &[])?;
    asked::edges(rt, block, &[0, 0, 0, 0])
}

fn each(rt: &impl Print, block: &[u8]) -> io::Result<()> {
    asked::counts(rt, block)?;
    lists(rt, block)
}

fn none(rt: &impl Print, block: &[u8]) -> io::Result<()> {
    asked::numbers(rt, block, b"EN", 0, &[2])?;
    each(rt, block)
}

fn squares(rt: &impl Print) -> io::Result<()> {
    let dyck = blocks::lettered(2, 2, 2);
    strings(rt, &dyck, b"EENNENEN", 4, b"EENNEENE")?;
    each(rt, &dyck)?;
    let schroder = blocks::lettered(4, 2, 2);
    strings(rt, &schroder, b"EENNEDN", 4, b"EENNEDE")?;
    asked::numbers(rt, &schroder, b"D", 0, &[1])?;
    each(rt, &schroder)?;
    let motzkin = blocks::lettered(5, 2, 2);
    strings(rt, &motzkin, b"ENDD", 2, b"ENDE")?;
    each(rt, &motzkin)
}

fn plain(rt: &impl Print) -> io::Result<()> {
    let north = blocks::lettered(1, 1, 1);
    strings(rt, &north, b"ENNE", 2, b"ENEE")?;
    each(rt, &north)?;
    let delannoy = blocks::lettered(3, 1, 1);
    strings(rt, &delannoy, b"END", 2, b"ENF")?;
    each(rt, &delannoy)
}

fn paired(rt: &impl Print) -> io::Result<()> {
    let open = blocks::with_t(6, 2, 0);
    strings(rt, &open, b"1322", 2, b"1323")?;
    each(rt, &open)?;
    let fenced = blocks::with_t(7, 2, 0);
    strings(rt, &fenced, b"3122", 2, b"2213")?;
    each(rt, &fenced)
}

// Refusals, counts that don't fit, and a job with none though many of its cells don't fit.
fn refused(rt: &impl Print) -> io::Result<()> {
    none(rt, b"")?;
    none(rt, &blocks::lettered(8, 1, 1))?;
    none(rt, &blocks::lettered(1, 65, 0))?;
    none(rt, &blocks::lettered(2, 65, 65))?;
    none(rt, &blocks::with_t(6, 33, 0))?;
    none(rt, &blocks::block(6, 1, 0, 2, blocks::TWINS))?;
    none(rt, &blocks::lettered(1, 34, 34))?;
    none(rt, &blocks::lettered(2, 37, 37))?;
    none(rt, &blocks::block(6, 32, 0, 7, blocks::SEVEN))?;
    none(rt, &blocks::block(6, 32, 96, 7, blocks::SEVEN))?;
    none(rt, &blocks::block(6, 32, 1, 7, blocks::EVEN))
}

// Strings and jobs beside a rule: `D` in North-East, a string that begins too late, one for an end that no step leads to; counts near 2^64.
fn beside(rt: &impl Print) -> io::Result<()> {
    asked::numbers(rt, &blocks::lettered(1, 1, 1), b"D", 0, &[1])?;
    asked::numbers(rt, &blocks::block(6, 1, 253, 1, blocks::DOWN), b"", 0, &[0])?;
    asked::numbers(rt, &blocks::block(6, 1, 1, 1, blocks::LEVEL), b"1", 0, &[1])?;
    asked::counts(rt, &blocks::block(6, 30, 245, 5, blocks::FIVE))?;
    none(rt, &blocks::lettered(1, 33, 35))
}

pub(crate) fn run(rt: &impl Print) -> io::Result<()> {
    squares(rt)?;
    plain(rt)?;
    paired(rt)?;
    refused(rt)?;
    beside(rt)
}
