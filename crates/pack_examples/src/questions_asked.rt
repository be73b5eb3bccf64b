// The earlier of two edges, and dips.
use crate::jobs::{lettered, with_t};
use crate::say;
use std::io;

fn earlier<'a>(rt: &impl Print, a: &'a [u8], b: &'a [u8]) -> io::Result<()> {
    say::earlier(rt, &lettered(2, 4, 4), a, b)
}

fn two(rt: &impl Print) -> io::Result<()> {
    println!(rt;
        "earlier of two Dyck edges: either way, equal, a bad first, a bad second, refused 4"
    )?;
    earlier(rt, b"EENENENN", b"ENEEENNN")?;
    earlier(rt, b"ENEEENNN", b"EENENENN")?;
    earlier(rt, b"ENEEENNN", b"ENEEENNN")?;
    earlier(rt, b"NEEEENNN", b"ENEEENNN")?;
    earlier(rt, b"ENEEENNN", b"ENEEENN")?;
    say::earlier(rt, &lettered(2, 37, 37), b"EN", b"NE")
}

// A job with T.
fn dip(rt: &impl Print, family: u8, n: u8, m: u8, edge: &[u8]) -> io::Result<()> {
    say::dip(rt, &with_t(family, n, m), edge)
}

// A job of families 1 to 5.
fn plain_dip(rt: &impl Print, family: u8, n: u8, m: u8, edge: &[u8]) -> io::Result<()> {
    say::dip(rt, &lettered(family, n, m), edge)
}

fn dips(rt: &impl Print) -> io::Result<()> {
    println!(rt; "dips")?;
    dip(rt, 6, 3, 1, b"133")?;
    dip(rt, 6, 3, 1, b"313")?;
    dip(rt, 6, 3, 1, b"331")?;
    dip(rt, 6, 3, 1, b"322")?;
    dip(rt, 6, 4, 1, b"1233")?;
    dip(rt, 6, 2, 1, b"23")?;
    dip(rt, 7, 3, 1, b"133")?;
    plain_dip(rt, 1, 1, 1, b"XX")?;
    plain_dip(rt, 2, 37, 37, b"EN")?;
    plain_dip(rt, 1, 65, 0, b"EN")
}

pub(crate) fn run(rt: &impl Print) -> io::Result<()> {
    two(rt)?;
    dips(rt)
}
