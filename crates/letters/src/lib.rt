// Which step a byte of an edge stands for: the letters N E D for families 1 to 5, the digits 1 to 8 for families 6 and 7.
#![tactic(auto)]

ghost use Rattle.std.specs.Prelude.{◌≡◌};
ghost use Rattle.letters.specs.Meets.{OrdinalOfMeets};

use job::{Job, Step};

// Which step the byte b stands for; 8 where it is no letter.
// kept: a place past every step, and no Option: whoever reads an edge compares the place with the number of its job's steps, and that one test
// turns away a byte that is no letter and a letter that the job doesn't use; an Option would be taken apart before it, once for each step.
#[tactic(auto, unfolding(crate::specs::Letters::ordinal_of))]
pub fn ordinal_of(lettered: bool, b: u8) -> usize
    ensures { OrdinalOfMeets lettered b result }
{
    match (lettered, b) {
        (true, Step::NORTH) => 0,
        (true, Step::EAST) => 1,
        (true, Step::DIAGONAL) => 2,
        (false, Step::FIRST..=Step::LAST) => usize::from(b - Step::FIRST),
        _ => Job::STEPS,
    }
}
