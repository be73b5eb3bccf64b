// Answers as lines of text.
use pack::Fault;
use std::io;

// What is answered of a pack numbered whole, and the list after it.
pub(crate) fn numbers(rt: &impl Print, pack: &[u8], list: &mut [u64]) -> io::Result<()> {
    match pack::number_all(pack, list) {
        Ok(count) => print!(rt; "numbers {count} [")?,
        Err(Fault::NotEdge(i)) => print!(rt; "refused 5 at {i} [")?,
        Err(Fault::Refused(refusal)) => print!(rt; "refused {refusal} [")?,
    }
    for number in list.iter() {
        print!(rt; " {number}")?;
    }
    println!(rt; " ]")
}
