// Families 1 and 3: count, number and build. The count keeps one row of counts; number and build fill the table, row by row.
#![tactic(auto)]

ghost use Rattle.std.specs.Prelude.{◌≡◌, true};
ghost use Rattle.rules.specs.Blocks.{family_of, plain};
ghost use Rattle.rows.specs.Meets.{CountMeets, NumberAllMeets, BuildAllMeets};

mod numbering;
mod plain;
mod spelling;
mod table;

use job::Refusal;
use lines::Unanswered;
use numbering::Strings;
use plain::Plain;

fn count_own(block: &[u8]) -> Result<u64, Refusal>
    requires { plain (family_of block.now) ≡ true }
    ensures { CountMeets block.now (Some result) }
{
    let c = Plain::of(block)?;
    plains::count(c.n, c.m, c.diagonal)
}

// The count of a job of family 1 or 3 (document 01, "Counts").
pub fn count(block: &[u8]) -> Option<Result<u64, Refusal>>
    ensures { CountMeets block.now result }
{
    if job::is_plain(job::family_of(block)) {
        return Some(count_own(block));
    }
    None
}

// The numbers of the edges of one lent slice, by where the first begins and each ends (000, algorithms 1 and 5).
pub fn number_all(
    block: &[u8],
    bytes: &[u8],
    from: usize,
    ends: &[usize],
    numbers: &mut [u64],
) -> Option<Result<usize, Unanswered>>
    ensures { NumberAllMeets block.now bytes.now from ends.now numbers.old result numbers.new }
{
    if job::is_plain(job::family_of(block)) {
        let s = Strings { bytes, from, ends };
        return Some(numbering::number_own(block, s, numbers));
    }
    None
}

// The edges of a list of numbers, one after the other, and where each ends (000, algorithms 2 and 6).
pub fn build_all(
    block: &[u8],
    numbers: &[u64],
    steps: &mut [u8],
    ends: &mut [usize],
) -> Option<Result<usize, Unanswered>>
    ensures { BuildAllMeets block.now numbers.now steps.old ends.old result steps.new ends.new }
{
    if job::is_plain(job::family_of(block)) {
        return Some(spelling::build_own(block, numbers, steps, ends));
    }
    None
}
