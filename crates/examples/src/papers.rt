// All edges of a job, both ways: tables 1 to 5 of document 000 and table 1 of 001.
use crate::blocks::{lettered, with_t};
use crate::say;
use std::io;

// The edges of the numbers up to and including the first that is refused.
fn table(rt: &impl Print, block: &[u8], rows: u64) -> io::Result<()> {
    for r in 0..=rows {
        say::build(rt, block, r)?;
    }
    Ok(())
}

// All edges of a job of families 1 to 5.
fn plain(rt: &impl Print, title: &str, family: u8, n: u8, m: u8, rows: u64) -> io::Result<()> {
    println!(rt; "{title}")?;
    table(rt, &lettered(family, n, m), rows)
}

pub(crate) fn run(rt: &impl Print) -> io::Result<()> {
    plain(rt, "000, table 1", 1, 3, 3, 20)?;
    plain(rt, "000, table 2", 2, 3, 3, 5)?;
    plain(rt, "000, table 3", 3, 3, 2, 25)?;
    plain(rt, "000, table 4", 4, 3, 3, 22)?;
    plain(rt, "000, table 5", 5, 3, 3, 4)?;
    println!(rt; "001, table 1")?;
    table(rt, &with_t(6, 3, 1), 6)
}
