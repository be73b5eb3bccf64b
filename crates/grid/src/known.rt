// What is known of a block before anything is worked out.
ghost use Rattle.std.specs.Prelude.{◌≡◌, true};
ghost use Rattle.rules.specs.Blocks.{family_of, paired};
ghost use Rattle.grid.specs.Calls.{KnownIs};

use crate::shape::shape_of;
use job::{Job, Refusal};
use tables::Shape;

// The shape of the block's job, none where nothing leads to its end, or refusal 1, 2 or 3.
pub(crate) fn shape_in(block: &[u8]) -> Result<Option<Shape>, Refusal>
    requires { paired (family_of block.now) ≡ true }
    ensures { KnownIs block.now result }
{
    let job = Job::of(block)?;
    Ok(shape_of(job))
}
