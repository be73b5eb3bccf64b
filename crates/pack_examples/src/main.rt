// Packs, run: written and read back, damaged at every byte of the front, empty and full, with repeats; the earlier of two edges, and dips.
#![tactic(auto)]

mod say; // say.rt: answers as lines of text
mod jobs; // jobs.rt: blocks and packs
mod written; // written.rt: packs written, and read back
mod damaged; // damaged.rt: packs that are refused
mod questions_asked; // questions_asked.rt: earlier of two, and dips

use std::io;

fn main(rt: HostRuntime) -> io::Result<()> {
    written::run(&rt)?;
    damaged::run(&rt)?;
    questions_asked::run(&rt)
}
