// Families 6 and 7: count, number and build over the table, filled column by column.
#![tactic(auto)]

ghost use Rattle.std.specs.Prelude.{◌≡◌, Some, true};
ghost use Rattle.rules.specs.Blocks.{family_of, paired};
ghost use Rattle.grid.specs.Meets.{CountMeets, NumberAllMeets, BuildAllMeets};

mod column;
mod cone;
mod counting;
mod edges;
mod flags;
mod heights;
mod known;
mod numbering;
mod plan;
mod shape;
mod spelling;
mod table;

use job::Refusal;
use known::shape_in;
use lines::Unanswered;

// Whether the block is of family 6 or 7.
fn is_mine(block: &[u8]) -> bool
    ensures { result ≡ paired (family_of block.now) }
{
    job::is_paired(job::family_of(block))
}

fn count_own(block: &[u8]) -> Result<u64, Refusal>
    requires { paired (family_of block.now) ≡ true }
    ensures { CountMeets block.now (Some result) }
{
    counting::count(shape_in(block)?)
}

// The count of a job of family 6 or 7 (document 01, "Counts").
pub fn count(block: &[u8]) -> Option<Result<u64, Refusal>>
    ensures { CountMeets block.now result }
{
    if !is_mine(block) {
        return None; // another crate counts it
    }
    Some(count_own(block))
}

fn number_own(
    block: &[u8],
    bytes: &[u8],
    from: usize,
    ends: &[usize],
    numbers: &mut [u64],
) -> Result<usize, Unanswered>
    requires { paired (family_of block.now) ≡ true }
    ensures { NumberAllMeets block.now bytes.now from ends.now numbers.old (Some result) numbers.new }
{
    if numbers.len() < ends.len() {
        return Err(Unanswered::NoRoom);
    }
    Ok(numbering::number_edges(shape_in(block)?, bytes, from, ends, numbers)?)
}

// The numbers of the edges of one lent slice, by where the first begins and each ends (001, algorithm 7).
pub fn number_all(
    block: &[u8],
    bytes: &[u8],
    from: usize,
    ends: &[usize],
    numbers: &mut [u64],
) -> Option<Result<usize, Unanswered>>
    ensures { NumberAllMeets block.now bytes.now from ends.now numbers.old result numbers.new }
{
    if !is_mine(block) {
        return None;
    }
    Some(number_own(block, bytes, from, ends, numbers))
}

fn build_own(
    block: &[u8],
    numbers: &[u64],
    steps: &mut [u8],
    ends: &mut [usize],
) -> Result<usize, Unanswered>
    requires { paired (family_of block.now) ≡ true }
    ensures { BuildAllMeets block.now numbers.now steps.old ends.old (Some result) steps.new ends.new }
{
    let room = lines::has_room(numbers.len(), steps.len(), ends.len());
    if !room {
        return Err(Unanswered::NoRoom);
    }
    Ok(spelling::spell_edges(shape_in(block)?, numbers, steps, ends)?)
}

// The edges of a list of numbers, one after the other, and where each ends (001, algorithm 8).
pub fn build_all(
    block: &[u8],
    numbers: &[u64],
    steps: &mut [u8],
    ends: &mut [usize],
) -> Option<Result<usize, Unanswered>>
    ensures { BuildAllMeets block.now numbers.now steps.old ends.old result steps.new ends.new }
{
    if !is_mine(block) {
        return None;
    }
    Some(build_own(block, numbers, steps, ends))
}
