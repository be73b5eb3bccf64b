// Answers as lines of text.
use questions::Which;
use std::io;

// Where edge i stands, its bytes, and the number of the call that only refuses.
pub(crate) fn edge(rt: &impl Print, pack: &[u8], i: usize) -> io::Result<()> {
    match pack::part(pack, i) {
        Ok((start, end)) => print!(rt; "from {start} {end} [")?,
        Err(refusal) => print!(rt; "refused {refusal} [")?,
    }
    rt.write_all(pack::edge(pack, i))?;
    println!(rt; "] {}", pack::edge_refusal(pack, i))
}

pub(crate) fn repeat(rt: &impl Print, pack: &[u8]) -> io::Result<()> {
    match pack::repeat(pack) {
        Ok(Some((later, earlier))) => println!(rt; "repeat {later} {earlier}"),
        Ok(None) => println!(rt; "no repeat"),
        Err(refusal) => println!(rt; "refused {refusal}"),
    }
}

pub(crate) fn write(
    rt: &impl Print,
    block: &[u8],
    numbers: &[u64],
    out: &mut [u8],
) -> io::Result<()> {
    match packing::write(block, numbers, out) {
        Ok(length) => println!(rt; "length {length}"),
        Err(refusal) => println!(rt; "refused {refusal}"),
    }
}

pub(crate) fn earlier<'a>(
    rt: &impl Print,
    block: &[u8],
    a: &'a [u8],
    b: &'a [u8],
) -> io::Result<()> {
    match questions::compare(block, a, b) {
        Ok(Which::First) => print!(rt; "first [")?,
        Ok(Which::Second) => print!(rt; "second [")?,
        Err(refusal) => print!(rt; "refused {refusal} [")?,
    }
    rt.write_all(questions::earlier(block, a, b))?;
    println!(rt; "] {}", questions::earlier_refusal(block, a, b))
}

pub(crate) fn dip(rt: &impl Print, block: &[u8], edge: &[u8]) -> io::Result<()> {
    rt.write_all(edge)?;
    match questions::dip(block, edge) {
        Ok(Some(i)) => println!(rt; " dips at {i}"),
        Ok(None) => println!(rt; " never dips"),
        Err(refusal) => println!(rt; " refused {refusal}"),
    }
}
