// Document 01's examples that aren't marked P, each refusal at its edge, the papers' tables, lists by every engine, and every small public
// function, run: one answer a line.
#![tactic(auto)]

mod blocks; // blocks.rt: job blocks
mod say; // say.rt: answers as lines of text
mod counts; // counts.rt: counts and widths
mod refusals; // refusals.rt: each refusal of a block at its edge
mod papers; // papers.rt: all edges of a job, both ways
mod edges; // edges.rt: single numbers and edges
mod words; // words.rt: answers as words of a line
mod asked; // asked.rt: a list asked of every engine
mod lists; // lists.rt: lists of edges and of numbers
mod small; // small.rt: letters, families, jobs, room, parts, walks

use std::io;

fn main(rt: HostRuntime) -> io::Result<()> {
    counts::run(&rt)?;
    refusals::run(&rt)?;
    edges::run(&rt)?;
    papers::run(&rt)?;
    lists::run(&rt)?;
    small::run(&rt)
}
