// Counts and widths: document 01's examples, and jobs of no edge, of one, and of a power of two.
use crate::blocks::{LEVEL, SEVEN, block, lettered, with_t};
use crate::say;
use std::io;

// The steps (1,0) and (1,1).
const RISE: [u8; 16] = [1, 0, 1, 1, 0, 0, 0, 0, 0, 0, 0, 0, 0, 0, 0, 0];

// The steps (1,-3), (1,-1), (1,1), (1,3), (2,-2), (2,0), (2,2), (3,1): to (32,1) there is no edge, though a cell beside the end overflows.
const EIGHT: [u8; 16] = [1, 253, 1, 255, 1, 1, 1, 3, 2, 254, 2, 0, 2, 2, 3, 1];

fn both(rt: &impl Print, block: &[u8]) -> io::Result<()> {
    say::count(rt, block)?;
    say::width(rt, block)
}

fn letters(rt: &impl Print) -> io::Result<()> {
    both(rt, &lettered(1, 33, 34))?;
    both(rt, &lettered(1, 34, 34))?;
    both(rt, &lettered(1, 65, 0))?;
    both(rt, &lettered(1, 0, 0))?;
    both(rt, &lettered(1, 1, 1))?;
    both(rt, &lettered(1, 3, 3))
}

fn squares(rt: &impl Print) -> io::Result<()> {
    both(rt, &lettered(2, 36, 36))?;
    both(rt, &lettered(2, 37, 37))?;
    both(rt, &lettered(4, 28, 28))?;
    both(rt, &lettered(4, 29, 29))?;
    both(rt, &lettered(5, 45, 45))?;
    both(rt, &lettered(5, 46, 46))
}

fn directed(rt: &impl Print) -> io::Result<()> {
    both(rt, &with_t(6, 3, 1))?;
    both(rt, &with_t(7, 3, 1))?;
    both(rt, &with_t(7, 2, 255))?;
    both(rt, &block(6, 32, 96, 7, SEVEN))?;
    both(rt, &block(6, 32, 0, 1, LEVEL))?;
    both(rt, &block(6, 32, 1, 1, LEVEL))?;
    both(rt, &block(7, 32, 16, 2, RISE))?;
    both(rt, &block(6, 32, 1, 8, EIGHT))
}

pub(crate) fn run(rt: &impl Print) -> io::Result<()> {
    println!(rt; "counts and widths")?;
    letters(rt)?;
    squares(rt)?;
    directed(rt)
}
