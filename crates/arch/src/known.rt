// What is known of a block of family 2, 4 or 5 before anything is worked out.
ghost use Rattle.std.specs.Prelude.{◌≡◌};
ghost use Rattle.rules.specs.Blocks.{family_of};
ghost use Rattle.arch.specs.Squares.{number_of_family};
ghost use Rattle.arch.specs.Calls.{KnownIs};

use crate::square::Square;
use job::{Job, Refusal};

// The block's n, whose count fits. Refusals 1, 2 and 3 come first, then "4 Over", which n alone says.
pub(crate) fn known_of(block: &[u8], family: Square) -> Result<usize, Refusal>
    requires { family_of block.now ≡ number_of_family family }
    ensures { KnownIs block.now family result }
{
    let job = Job::of(block)?;
    let n = usize::from(job.n);
    let limit = family.limit();
    if limit < n {
        return Err(Refusal::Over);
    }
    Ok(n)
}
