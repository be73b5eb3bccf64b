// Each refusal of a block at its edge: the last that is accepted beside the first that isn't.
use crate::blocks::{NONE, T, block, lettered, with_t};
use crate::say::count;
use std::io;

// Eight different pairs.
const FULL: [u8; 16] = [1, 253, 1, 254, 1, 255, 1, 0, 1, 1, 1, 2, 1, 3, 2, 0];

// The block of family 6 with the pairs (1,0) and (a,b).
fn paired(n: u8, a: u8, b: u8) -> [u8; 20] {
    block(6, n, 0, 2, [1, 0, a, b, 0, 0, 0, 0, 0, 0, 0, 0, 0, 0, 0, 0])
}

fn lengths(rt: &impl Print) -> io::Result<()> {
    let block = with_t(6, 3, 1);
    println!(rt; "blocks of 0, 19, 20 and 21 bytes")?;
    count(rt, &block[0..0])?;
    count(rt, &block[0..19])?;
    count(rt, &block)?;
    count(rt, &[0; 21])
}

fn families(rt: &impl Print) -> io::Result<()> {
    println!(rt; "families 0 and 8")?;
    count(rt, &lettered(0, 0, 0))?;
    count(rt, &lettered(8, 0, 0))
}

fn unused(rt: &impl Print) -> io::Result<()> {
    println!(rt; "unused bytes: k of family 1, the last pair, a pair beyond k, none beyond 8")?;
    count(rt, &block(1, 3, 3, 1, NONE))?;
    count(rt, &block(1, 3, 3, 0, T))?;
    count(rt, &block(6, 3, 1, 2, T))?;
    count(rt, &block(6, 3, 0, 8, FULL))
}

fn steps(rt: &impl Print) -> io::Result<()> {
    println!(rt; "k = 0, 0 with a pair, 8, 9, 255")?;
    count(rt, &block(6, 3, 0, 0, NONE))?;
    count(rt, &block(6, 3, 0, 0, T))?;
    count(rt, &block(6, 3, 0, 8, FULL))?;
    count(rt, &block(6, 3, 0, 9, FULL))?;
    count(rt, &block(6, 3, 0, 255, FULL))
}

fn pairs(rt: &impl Print) -> io::Result<()> {
    println!(rt; "a = 0, 1, 3, 4")?;
    count(rt, &paired(3, 0, 1))?;
    count(rt, &paired(3, 1, 1))?;
    count(rt, &paired(3, 3, 1))?;
    count(rt, &paired(3, 4, 1))?;
    println!(rt; "b = -4, -3, 3, 4")?;
    count(rt, &paired(3, 1, 252))?;
    count(rt, &paired(3, 1, 253))?;
    count(rt, &paired(3, 1, 3))?;
    count(rt, &paired(3, 1, 4))
}

fn twins(rt: &impl Print) -> io::Result<()> {
    println!(rt; "twins; twins out of range")?;
    count(rt, &paired(3, 1, 0))?;
    count(rt, &paired(33, 1, 0))
}

fn squares(rt: &impl Print) -> io::Result<()> {
    println!(rt; "m beside n")?;
    count(rt, &lettered(2, 3, 3))?;
    count(rt, &lettered(2, 3, 4))?;
    count(rt, &lettered(4, 4, 3))?;
    count(rt, &lettered(5, 0, 1))
}

fn ends(rt: &impl Print) -> io::Result<()> {
    println!(rt; "n or m = 64, 65, -1")?;
    count(rt, &lettered(1, 64, 0))?;
    count(rt, &lettered(1, 0, 64))?;
    count(rt, &lettered(3, 0, 65))?;
    count(rt, &lettered(3, 0, 255))?;
    println!(rt; "n = 32, 33; m = -97, -96, 96, 97")?;
    count(rt, &with_t(6, 32, 32))?;
    count(rt, &with_t(6, 33, 33))?;
    count(rt, &with_t(6, 32, 159))?;
    count(rt, &with_t(6, 32, 160))?;
    count(rt, &with_t(7, 32, 96))?;
    count(rt, &with_t(7, 32, 97))
}

pub(crate) fn run(rt: &impl Print) -> io::Result<()> {
    lengths(rt)?;
    families(rt)?;
    unused(rt)?;
    steps(rt)?;
    pairs(rt)?;
    twins(rt)?;
    squares(rt)?;
    ends(rt)
}
