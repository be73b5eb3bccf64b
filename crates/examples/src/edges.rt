// Single numbers and edges: document 01's examples, strings that aren't edges, numbers beyond, and room.
use crate::blocks::{lettered, with_t};
use crate::say;
use std::io;

const MOST: u64 = 18446744073709551615;

fn north_east(rt: &impl Print, block: &[u8]) -> io::Result<()> {
    println!(rt; "family 1: two edges; too short, too long, another letter")?;
    say::number(rt, block, b"EEENNN")?;
    say::number(rt, block, b"NNNEEE")?;
    say::number(rt, block, b"EEENN")?;
    say::number(rt, block, b"EEENNNN")?;
    say::number(rt, block, b"EEENND")
}

fn dyck(rt: &impl Print, block: &[u8]) -> io::Result<()> {
    println!(rt; "family 2: an edge; above the diagonal, the empty edge")?;
    say::number(rt, block, b"EENN")?;
    say::number(rt, block, b"NEEN")?;
    say::number(rt, block, b"")
}

fn open(rt: &impl Print, block: &[u8]) -> io::Result<()> {
    println!(rt; "family 6: two edges; a digit above k")?;
    say::number(rt, block, b"331")?;
    say::number(rt, block, b"322")?;
    say::number(rt, block, b"342")
}

fn fenced(rt: &impl Print, block: &[u8]) -> io::Result<()> {
    println!(rt; "family 7: an edge; below the fence and back")?;
    say::number(rt, block, b"322")?;
    say::number(rt, block, b"133")
}

fn numbers(rt: &impl Print) -> io::Result<()> {
    north_east(rt, &lettered(1, 3, 3))?;
    dyck(rt, &lettered(2, 2, 2))?;
    open(rt, &with_t(6, 3, 1))?;
    fenced(rt, &with_t(7, 3, 1))
}

fn beyond(rt: &impl Print) -> io::Result<()> {
    let dyck = lettered(2, 36, 36);
    let one = lettered(1, 0, 0);
    let none = with_t(7, 2, 255);
    println!(rt; "the last number, the first beyond, the most")?;
    say::build(rt, &dyck, 11959798385860453491)?;
    say::build(rt, &dyck, 11959798385860453492)?;
    say::build(rt, &one, 0)?;
    say::build(rt, &one, 1)?;
    say::build(rt, &none, 0)?;
    say::build(rt, &none, MOST)
}

fn room(rt: &impl Print) -> io::Result<()> {
    let delannoy = lettered(3, 1, 1);
    let one = lettered(1, 0, 0);
    let mut none = *b"";
    let mut short = *b".";
    let mut just = *b".";
    let mut long = *b"....";
    println!(rt; "room for none, one, four bytes")?;
    say::build_into(rt, &one, 0, &mut none)?;
    say::build_into(rt, &delannoy, 0, &mut short)?;
    say::build_into(rt, &delannoy, 2, &mut just)?;
    say::build_into(rt, &delannoy, 1, &mut long)
}

pub(crate) fn run(rt: &impl Print) -> io::Result<()> {
    numbers(rt)?;
    beyond(rt)?;
    room(rt)
}
