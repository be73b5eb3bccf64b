// Answers as words of a line.
use job::Refusal;
use lines::Unanswered;
use std::fmt::Display;
use std::io;

pub(crate) fn yes(rt: &impl Print, b: bool) -> io::Result<()> {
    print!(rt; "{}", if b { "yes " } else { "no " })
}

// A value behind a word, or why there is none.
pub(crate) fn answer<T: Display + Drop, E: Into<Unanswered>>(
    rt: &impl Print,
    word: &str,
    r: Result<T, E>,
) -> io::Result<()> {
    match r.map_err(Into::into) {
        Ok(value) => print!(rt; "{word}{value} "),
        Err(Unanswered::NoRoom) => print!(rt; "no room "),
        Err(Unanswered::Refused(refusal)) => print!(rt; "refused {refusal} "),
    }
}

// The answer of an engine, which has some families of its own.
pub(crate) fn mine<T: Display + Drop, E: Into<Unanswered>>(
    rt: &impl Print,
    word: &str,
    r: Option<Result<T, E>>,
) -> io::Result<()> {
    match r {
        Some(r) => answer(rt, word, r),
        None => print!(rt; "not mine "),
    }
}

pub(crate) fn walked(rt: &impl Print, r: Result<Option<usize>, Refusal>) -> io::Result<()> {
    match r {
        Ok(None) => print!(rt; "edge "),
        Ok(Some(step)) => print!(rt; "stops {step} "),
        Err(_) => print!(rt; "no job "),
    }
}

pub(crate) fn checked(
    rt: &impl Print,
    r: Result<Option<(usize, usize)>, Refusal>,
) -> io::Result<()> {
    match r {
        Ok(None) => print!(rt; "edges "),
        Ok(Some((edge, step))) => print!(rt; "stops {edge} {step} "),
        Err(_) => print!(rt; "no job "),
    }
}
