// Whether strings are valid edges of a job, by walking their steps alone, and where they go wrong (document 01, "Valid"): no table is filled,
// and no count is worked out.
#![tactic(auto)]

ghost use Rattle.walks.specs.Meets.{WalkMeets, WalkAllMeets};

mod paces; // paces.rt: the steps of a job as pairs, in every family
mod walking; // walking.rt: the walk of one string, and of many

use job::{Job, Refusal};
use paces::paces_of;
use walking::{walk_each, walk_one};

// Where a string goes wrong as an edge of the job, its length if that is at its end; None of a valid edge.
pub fn walk(block: &[u8], edge: &[u8]) -> Result<Option<usize>, Refusal>
    ensures { WalkMeets block.now edge.now result }
{
    let job = Job::of(block)?;
    Ok(walk_one(paces_of(job), edge))
}

// The same of the parts of one lent slice, by where the first begins and each ends: the first that isn't valid, and the place where it goes
// wrong.
pub fn walk_all(
    block: &[u8],
    bytes: &[u8],
    from: usize,
    ends: &[usize],
) -> Result<Option<(usize, usize)>, Refusal>
    ensures { WalkAllMeets block.now bytes.now from ends.now result }
{
    let paces = paces_of(Job::of(block)?);
    Ok(walk_each(paces, bytes, from, ends))
}
