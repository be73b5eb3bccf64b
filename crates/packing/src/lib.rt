// Packs written from a job block and a lent list of numbers (document 01, "Edge pack").
#![tactic(auto)]

ghost use Rattle.packing.specs.Packing.{TooMany};
ghost use Rattle.packing.specs.Meets.{WriteMeets};

use job::Refusal;
use lines::Line;
use pack::Pack;

mod put; // put.rt: the parts of a pack, put to a lent output

use put::Parts;

// The steps of as many edges of any length as a pack has.
const STEPS: usize = Pack::MOST * Line::LONGEST;

// "Packs are written from a job block and a lent list of numbers": refusals 1 to 4, then 10, 6 and 7; the counts are worked out once. There is
// room for the steps of the edges of every list that isn't too long.
pub fn write(block: &[u8], numbers: &[u64], out: &mut [u8]) -> Result<usize, Refusal>
    ensures { WriteMeets block.now numbers.now out.old result out.new }
{
    let c = numbers.len();
    if Pack::MOST < c {
        return too_many(block);
    }
    let mut steps = [0u8; STEPS];
    let mut ends = [0usize; Pack::MOST];
    let n = calls::build_all(block, numbers, &mut steps, &mut ends)?;
    let parts = Parts {
        block,
        ends: &ends[..c],
        steps: &steps[..n],
    };
    parts.put(out)
}

// "10 Many", after 1 to 4.
fn too_many(block: &[u8]) -> Result<usize, Refusal>
    ensures { TooMany block.now result }
{
    calls::count(block)?;
    Err(Refusal::Many)
}
