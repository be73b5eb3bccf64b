// Listings of every kind, one after the other, as the listing program prints them.
#![tactic(auto)]

use std::io;

// kept: as in edgelist: no program is a dependency, and no contract of a library settles what is printed.
fn print(rt: &impl Print, input: &[u8]) -> io::Result<()> {
    let mut text = [0u8; 152000];
    match listing::write(input, &mut text) {
        Ok(length) => rt.write_all(&text[..length]),
        Err(_) => unreachable!(), // no listing is longer
    }
}

// A block of families 1 to 5; m is handed over as the byte that stands for it.
// kept: as in examples and pack_examples: a library for it would have three times its lines, in a contract, a relation and what settles it.
fn lettered(family: u8, n: u8, m: u8) -> [u8; 20] {
    let mut block = [0; 20];
    block[0..3].copy_from_slice(&[family, n, m]);
    block
}

// A block of families 6 and 7 with the steps (1,-1), (1,0) and (1,b).
fn directed(family: u8, n: u8, m: u8, b: u8) -> [u8; 20] {
    let mut block = lettered(family, n, m);
    block[3..10].copy_from_slice(&[3, 1, 255, 1, 0, 1, b]);
    block
}

// A block that is one byte short, one that is one byte too long, and no input.
fn other_lengths(rt: &impl Print) -> io::Result<()> {
    let mut long = [0; 21];
    long[0] = 1;
    print(rt, &long[0..19])?;
    print(rt, &long)?;
    print(rt, b"")
}

fn refusals(rt: &impl Print) -> io::Result<()> {
    print(rt, &lettered(8, 3, 3))?;
    print(rt, &directed(5, 3, 3, 1))?;
    print(rt, &lettered(1, 65, 0))?;
    print(rt, &lettered(2, 3, 4))?;
    print(rt, &directed(6, 3, 1, 255))?;
    print(rt, &lettered(1, 34, 34))
}

fn few(rt: &impl Print) -> io::Result<()> {
    print(rt, &lettered(5, 3, 3))?;
    print(rt, &lettered(1, 0, 0))?;
    print(rt, &directed(7, 2, 255, 1))?;
    print(rt, &directed(6, 3, 254, 1))?;
    print(rt, &directed(7, 3, 1, 1))
}

// The count of the last is 1,001.
fn many(rt: &impl Print) -> io::Result<()> {
    print(rt, &lettered(2, 4, 4))?;
    print(rt, &lettered(3, 2, 2))?;
    print(rt, &lettered(4, 3, 3))?;
    print(rt, &lettered(1, 10, 4))
}

fn main(rt: HostRuntime) -> io::Result<()> {
    other_lengths(&rt)?;
    refusals(&rt)?;
    few(&rt)?;
    many(&rt)
}
