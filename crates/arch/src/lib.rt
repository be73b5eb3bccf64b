// Families 2, 4 and 5 over one theory: d says whether the family has `D`, and an arch spans v + 1.
#![tactic(auto)]

ghost use Rattle.std.specs.Prelude.{◌≡◌, Some};
ghost use Rattle.rules.specs.Blocks.{family_of};
ghost use Rattle.arch.specs.Squares.{number_of_family};
ghost use Rattle.arch.specs.Meets.{CountMeets, NumberAllMeets, BuildAllMeets};

mod builder; // builder.rt: the edge of a number
mod counts; // counts.rt: how far the counts fit, and the counts of families 4 and 5
mod dyck; // dyck.rt: the counts of family 2, by its recursion
mod forward; // forward.rt: numbers for families 4 and 5, read from the first step
mod known; // known.rt: a block's n, or its refusal
mod numbering; // numbering.rt: the numbers of a list of edges, written
mod output; // output.rt: the edges of a list of numbers, written
mod parts; // parts.rt: the counts that are lent along
mod reverse; // reverse.rt: numbers for family 2, read from the last step
mod square; // square.rt: families 2, 4 and 5, and the counts of each
mod sums; // sums.rt: the products before a number, and where a number falls among them

use job::Refusal;
use known::known_of;
use lines::Unanswered;
use numbering::number_each;
use output::write_edges;
use square::Square;

// "Counts": C, S or M; none of another family's block.
pub fn count(block: &[u8]) -> Option<Result<u64, Refusal>>
    ensures { CountMeets block.now result }
{
    let family = Square::of(job::family_of(block))?;
    Some(count_own(block, family))
}

fn count_own(block: &[u8], family: Square) -> Result<u64, Refusal>
    requires { family_of block.now ≡ number_of_family family }
    ensures { CountMeets block.now (Some result) }
{
    let n = known_of(block, family)?;
    Ok(family.count(n))
}

// "Order and numbers", families 2, 4, 5: the numbers of the edges of one lent slice, by where the first begins and each ends.
pub fn number_all(
    block: &[u8],
    bytes: &[u8],
    from: usize,
    ends: &[usize],
    numbers: &mut [u64],
) -> Option<Result<usize, Unanswered>>
    ensures { NumberAllMeets block.now bytes.now from ends.now numbers.old result numbers.new }
{
    let family = Square::of(job::family_of(block))?;
    Some(number_own(block, family, bytes, from, ends, numbers))
}

fn number_own(
    block: &[u8],
    family: Square,
    bytes: &[u8],
    from: usize,
    ends: &[usize],
    numbers: &mut [u64],
) -> Result<usize, Unanswered>
    requires { family_of block.now ≡ number_of_family family }
    ensures { NumberAllMeets block.now bytes.now from ends.now numbers.old (Some result) numbers.new }
{
    if numbers.len() < ends.len() {
        return Err(Unanswered::NoRoom);
    }
    let n = known_of(block, family)?;
    let parts = family.counts(n);
    Ok(number_each(&parts, bytes, from, ends, numbers))
}

// "Order and numbers", families 2, 4, 5: the edges of a list of numbers, one after the other, and where each ends.
pub fn build_all(
    block: &[u8],
    numbers: &[u64],
    steps: &mut [u8],
    ends: &mut [usize],
) -> Option<Result<usize, Unanswered>>
    ensures { BuildAllMeets block.now numbers.now steps.old ends.old result steps.new ends.new }
{
    let family = Square::of(job::family_of(block))?;
    Some(build_own(block, family, numbers, steps, ends))
}

fn build_own(
    block: &[u8],
    family: Square,
    numbers: &[u64],
    steps: &mut [u8],
    ends: &mut [usize],
) -> Result<usize, Unanswered>
    requires { family_of block.now ≡ number_of_family family }
    ensures { BuildAllMeets block.now numbers.now steps.old ends.old (Some result) steps.new ends.new }
{
    if !lines::has_room(numbers.len(), steps.len(), ends.len()) {
        return Err(Unanswered::NoRoom);
    }
    let n = known_of(block, family)?;
    let parts = family.counts(n);
    let length = write_edges(&parts, numbers, steps, ends)?;
    Ok(length)
}
