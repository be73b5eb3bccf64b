// Packs numbered whole (document 02, L1). The lists hold nines before.
use crate::jobs::{bare, empty_edges, motzkin};
use crate::say;
use std::io;

fn lists(rt: &impl Print) -> io::Result<()> {
    println!(rt; "the pack of DDD and DEN numbered, to lists of 2, 4, 1 and 0")?;
    say::numbers(rt, &motzkin(), &mut [9, 9])?;
    say::numbers(rt, &motzkin(), &mut [9, 9, 9, 9])?;
    say::numbers(rt, &motzkin(), &mut [9])?;
    say::numbers(rt, &motzkin(), &mut [])
}

// "the first such index and no entry is written": the second edge made DEE, the first DDE; a list that is too short is refused 5 too.
fn faults(rt: &impl Print) -> io::Result<()> {
    let mut p = motzkin();
    println!(rt; "its second edge bad, both, and the first alone; to a list of 1 too")?;
    p[37] = b'E';
    say::numbers(rt, &p, &mut [9, 9])?;
    say::numbers(rt, &p, &mut [9])?;
    p[34] = b'E';
    say::numbers(rt, &p, &mut [9, 9])?;
    p[37] = b'N';
    say::numbers(rt, &p, &mut [9, 9])
}

// The pack's mark and its family; its family; its ranges.
fn refusals(rt: &impl Print) -> io::Result<()> {
    let mut p = motzkin();
    println!(rt; "refused 8, 1, 2, 4, 8")?;
    p[3] = b'2';
    p[4] = 9;
    say::numbers(rt, &p, &mut [9, 9])?;
    p[3] = b'1';
    say::numbers(rt, &p, &mut [9, 9])?;
    p[4] = 5;
    p[5] = 65;
    p[6] = 65;
    say::numbers(rt, &p, &mut [9, 9])
}

// A count that is too large, where the edges aren't valid and the list is too short as well; and a byte cut off.
fn more_refusals(rt: &impl Print) -> io::Result<()> {
    let mut p = motzkin();
    p[5] = 46;
    p[6] = 46;
    say::numbers(rt, &p, &mut [])?;
    let whole = motzkin();
    say::numbers(rt, &whole[0..37], &mut [9, 9])
}

// Two empty edges, and packs without edges: of (1,1), and of Motzkin 46, whose count is too large.
fn few(rt: &impl Print) -> io::Result<()> {
    println!(rt; "empty edges, no edges, and no edges of a job that is refused 4")?;
    say::numbers(rt, &empty_edges(), &mut [9, 9, 9])?;
    say::numbers(rt, &bare(1, 1), &mut [])?;
    say::numbers(rt, &bare(1, 1), &mut [9])?;
    say::numbers(rt, &bare(5, 46), &mut [9])
}

pub(crate) fn run(rt: &impl Print) -> io::Result<()> {
    lists(rt)?;
    faults(rt)?;
    refusals(rt)?;
    more_refusals(rt)?;
    few(rt)
}
