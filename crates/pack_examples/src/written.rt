// Packs written, and read back.
use crate::jobs::{empty_edges, lettered, twins};
use crate::say;
use std::{array, io};

fn read_few(rt: &impl Print, pack: &[u8]) -> io::Result<()> {
    say::edge(rt, pack, 0)?;
    say::edge(rt, pack, 1)?;
    say::edge(rt, pack, 2)?;
    say::edge(rt, pack, 65536)?;
    say::edge(rt, pack, 18446744073709551615)?;
    say::repeat(rt, pack)
}

fn few(rt: &impl Print) -> io::Result<()> {
    let mut out = [b'.'; 40];
    println!(rt; "Motzkin 3, numbers 0 and 3")?;
    of_two(rt, 3, &mut out)?;
    rt.write_all(&out[32..])?;
    println!(rt)?;
    read_few(rt, &out[0..38])
}

fn none(rt: &impl Print) -> io::Result<()> {
    let mut out = [b'.'; 30];
    println!(rt; "no numbers")?;
    say::write(rt, &lettered(5, 3, 3), &[], &mut out)?;
    rt.write_all(&out[28..])?;
    println!(rt)?;
    say::edge(rt, &out[0..28], 0)?;
    say::repeat(rt, &out[0..28])
}

fn pack_of(rt: &impl Print, numbers: &[u64]) -> io::Result<()> {
    let mut out = [b'.'; 2000];
    say::write(rt, &lettered(1, 3, 3), numbers, &mut out)?;
    say::edge(rt, &out[0..1628], 199)?;
    say::edge(rt, &out[0..1628], 200)?;
    say::repeat(rt, &out[0..1628])
}

// The job's twenty edges, again and again.
fn full(rt: &impl Print) -> io::Result<()> {
    let numbers: [u64; 201] = array::from_fn(|i| (i % 20) as u64);
    println!(rt; "200 and 201 numbers")?;
    pack_of(rt, &numbers[0..200])?;
    pack_of(rt, &numbers)
}

// A pack of one edge, number 0.
fn of_one(rt: &impl Print, family: u8, n: u8, m: u8, out: &mut [u8]) -> io::Result<()> {
    say::write(rt, &lettered(family, n, m), &[0], out)
}

// A pack of two edges of Motzkin 3, the number 0 and another.
fn of_two(rt: &impl Print, other: u64, out: &mut [u8]) -> io::Result<()> {
    say::write(rt, &lettered(5, 3, 3), &[0, other], out)
}

fn refused(rt: &impl Print) -> io::Result<()> {
    let mut out = [b'.'; 37];
    println!(rt; "refused, and nothing is written: 1, 2, 3, 4, 6, 7")?;
    of_one(rt, 8, 3, 3, &mut out)?;
    of_one(rt, 1, 65, 0, &mut out)?;
    say::write(rt, &twins(), &[0], &mut out)?;
    of_one(rt, 2, 37, 37, &mut out)?;
    of_two(rt, 4, &mut out)?;
    of_two(rt, 3, &mut out)?;
    rt.write_all(&out)?;
    println!(rt)
}

fn repeats(rt: &impl Print) -> io::Result<()> {
    let mut out = [b'.'; 48];
    println!(rt; "A B B A, and empty edges")?;
    say::write(rt, &lettered(5, 3, 3), &[0, 3, 3, 0], &mut out)?;
    say::repeat(rt, &out)?;
    say::edge(rt, &empty_edges(), 1)?;
    say::repeat(rt, &empty_edges())
}

pub(crate) fn run(rt: &impl Print) -> io::Result<()> {
    few(rt)?;
    none(rt)?;
    full(rt)?;
    refused(rt)?;
    repeats(rt)
}
