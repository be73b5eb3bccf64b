// Packs that are refused.
use crate::jobs::motzkin;
use crate::say;
use std::io;

// The pack with one byte changed, asked for edge 0.
fn change(rt: &impl Print, at: usize, to: u8) -> io::Result<()> {
    let mut p = motzkin();
    if at < p.len() {
        p[at] = to;
        say::edge(rt, &p, 0)?;
    }
    Ok(())
}

// Every byte of the front, one more.
fn front(rt: &impl Print) -> io::Result<()> {
    let pack = motzkin();
    println!(rt; "each byte of the front, raised by 1")?;
    for (i, byte) in pack[0..32].iter().enumerate() {
        change(rt, i, byte.wrapping_add(1))?;
    }
    Ok(())
}

fn offsets(rt: &impl Print) -> io::Result<()> {
    println!(rt; "offsets equal, falling, past the end, and the last short")?;
    change(rt, 28, 32)?;
    change(rt, 28, 31)?;
    change(rt, 29, 1)?;
    change(rt, 30, 37)
}

// The first n bytes of the pack.
fn cut(rt: &impl Print, n: usize) -> io::Result<()> {
    say::edge(rt, motzkin().get(..n).unwrap_or_default(), 0)
}

fn lengths(rt: &impl Print) -> io::Result<()> {
    println!(rt; "the pack cut: 0, 4, 27, 28, 31, 37 bytes")?;
    for n in [0, 4, 27, 28, 31, 37] {
        cut(rt, n)?;
    }
    Ok(())
}

// A bad edge goes before a bad i.
fn both(rt: &impl Print) -> io::Result<()> {
    let mut p = motzkin();
    println!(rt; "a bad edge beside a bad i, and a repeat asked of it")?;
    p[37] = b'E';
    say::edge(rt, &p, 2)?;
    say::repeat(rt, &p)
}

pub(crate) fn run(rt: &impl Print) -> io::Result<()> {
    front(rt)?;
    offsets(rt)?;
    lengths(rt)?;
    both(rt)
}
