// The small public functions: letters, families, jobs, room, parts, counts by rows, writing and walking.
use crate::{blocks, words};
use job::{Job, Refusal};
use lines::Unanswered;
use std::io;

fn letter(rt: &impl Print, b: u8) -> io::Result<()> {
    print!(rt;
        "{} {} ",
        letters::ordinal_of(true, b),
        letters::ordinal_of(false, b)
    )
}

fn letters_of(rt: &impl Print) -> io::Result<()> {
    print!(rt; "letters N E D F, digits 0 1 8 9, colon: ")?;
    for b in b"NEDF0189:" {
        letter(rt, *b)?;
    }
    println!(rt)
}

fn family(rt: &impl Print, f: u8) -> io::Result<()> {
    print!(rt; "{} ", job::wide(f))?;
    words::yes(rt, job::is_plain(f))?;
    words::yes(rt, job::is_square(f))?;
    words::yes(rt, job::is_paired(f))?;
    words::yes(rt, job::is_fenced(f))?;
    println!(rt)
}

fn families(rt: &impl Print) -> io::Result<()> {
    println!(rt; "families: plain, square, paired, fenced")?;
    for f in 0..10 {
        family(rt, f)?;
    }
    print!(rt; "families of blocks of 0, 1 and 2 bytes: ")?;
    println!(rt;
        "{} {} {} ",
        job::family_of(b""),
        job::family_of(&[2]),
        job::family_of(&[2, 3])
    )
}

fn made(rt: &impl Print, block: &[u8]) -> io::Result<()> {
    match Job::of(block) {
        Ok(job) => {
            let (a, b) = (job.a[1], job.b[1]);
            println!(rt;
                "0 {} {} {} {} {a} {b} ",
                u8::from(job.family),
                job.n,
                job.m,
                job.k
            )
        }
        Err(refusal) => println!(rt; "{refusal} 0 0 0 0 0 0 "),
    }
}

fn jobs(rt: &impl Print) -> io::Result<()> {
    println!(rt; "jobs: refusal, family, n, m and k, the second pair; m and b raised")?;
    made(rt, &blocks::lettered(3, 2, 5))?;
    made(rt, &blocks::with_t(6, 3, 255))?;
    made(rt, &blocks::with_t(7, 3, 1))?;
    made(rt, &blocks::lettered(0, 1, 1))?;
    made(rt, &blocks::lettered(2, 1, 2))?;
    made(rt, &blocks::block(7, 1, 0, 2, blocks::TWINS))
}

fn room(rt: &impl Print) -> io::Result<()> {
    print!(rt; "room for 2 edges, with a byte less, with one end; for 0: ")?;
    words::yes(rt, lines::has_room(2, 256, 2))?;
    words::yes(rt, lines::has_room(2, 255, 2))?;
    words::yes(rt, lines::has_room(2, 256, 1))?;
    words::yes(rt, lines::has_room(0, 0, 0))?;
    println!(rt)?;
    println!(rt;
        "no room, as a refusal: {}",
        Refusal::from(Unanswered::NoRoom)
    )?;
    print!(rt; "all below 5: ")?;
    words::yes(rt, lines::all_below(&[4, 0, 4], 5))?;
    words::yes(rt, lines::all_below(&[4, 5, 4], 5))?;
    words::yes(rt, lines::all_below(&[4, 0, 5], 5))?;
    words::yes(rt, lines::all_below(&[], 0))?;
    println!(rt)
}

fn part(rt: &impl Print, from: usize, to: usize) -> io::Result<()> {
    print!(rt; "[")?;
    rt.write_all(lines::part(b"abcde", from, to))?;
    print!(rt; "] ")
}

fn parts(rt: &impl Print) -> io::Result<()> {
    part(rt, 1, 3)?;
    part(rt, 3, 1)?;
    part(rt, 0, 9)?;
    part(rt, 9, 9)?;
    part(rt, 5, 5)?;
    println!(rt)
}

fn rows_of(rt: &impl Print) -> io::Result<()> {
    print!(rt; "L and D: ")?;
    words::answer(rt, "", plains::count(0, 0, false))?;
    words::answer(rt, "", plains::count(3, 2, false))?;
    words::answer(rt, "", plains::count(2, 3, true))?;
    words::answer(rt, "", plains::count(33, 34, false))?;
    words::answer(rt, "", plains::count(34, 34, false))?;
    words::answer(rt, "", plains::count(255, 1, true))?;
    println!(rt)
}

fn put(rt: &impl Print, edge: &[u8], out: &mut [u8]) -> io::Result<()> {
    words::answer(rt, "length ", job::put(edge, out))?;
    rt.write_all(out)?;
    print!(rt; " ")
}

fn puts(rt: &impl Print) -> io::Result<()> {
    print!(rt; "put to three bytes: ")?;
    let mut out = *b"...";
    put(rt, b"NE", &mut out)?;
    put(rt, b"NNNN", &mut out)?;
    put(rt, b"EEE", &mut out)?;
    println!(rt)
}

// No edges and no places for numbers: there is room, so a block of no family is refused.
fn nothing(rt: &impl Print) -> io::Result<()> {
    say_ranked(rt, b"")?;
    say_ranked(rt, &blocks::lettered(1, 1, 1))?;
    println!(rt)
}

fn say_ranked(rt: &impl Print, block: &[u8]) -> io::Result<()> {
    words::answer(rt, "upto ", calls::number_all(block, b"", 0, &[], &mut []))
}

fn walk(rt: &impl Print, block: &[u8], edge: &[u8]) -> io::Result<()> {
    rt.write_all(edge)?;
    print!(rt; " ")?;
    words::walked(rt, walks::walk(block, edge))
}

fn walks_of(rt: &impl Print) -> io::Result<()> {
    let plain = blocks::lettered(1, 1, 1);
    walk(rt, &plain, b"EN")?;
    walk(rt, &plain, b"E")?;
    walk(rt, &plain, b"EE")?;
    walk(rt, &plain, b"ED")?;
    walk(rt, &plain, b"ENN")?;
    println!(rt)?;
    let paired = blocks::with_t(7, 2, 0);
    walk(rt, &paired, b"13")?;
    walk(rt, &paired, b"31")?;
    walk(rt, &paired, b"32")?;
    walk(rt, &paired, b"4")?;
    walk(rt, &paired, b"222")?;
    println!(rt)?;
    let fived = blocks::lettered(5, 2, 2);
    walk(rt, &fived, b"EN")?;
    walk(rt, &fived, b"DD")?;
    walk(rt, &fived, b"EEN")?;
    walk(rt, b"", b"EN")?;
    println!(rt)
}

pub(crate) fn run(rt: &impl Print) -> io::Result<()> {
    letters_of(rt)?;
    families(rt)?;
    jobs(rt)?;
    room(rt)?;
    parts(rt)?;
    rows_of(rt)?;
    puts(rt)?;
    nothing(rt)?;
    walks_of(rt)
}
