// Packs numbered whole, run.
#![tactic(auto)]

mod say; // say.rt: answers as lines of text
mod jobs; // jobs.rt: packs
mod numbered; // numbered.rt: packs numbered whole

use std::io;

fn main(rt: HostRuntime) -> io::Result<()> {
    numbered::run(&rt)
}
