// Count, width, number and build for all seven families: each call is answered by the crate that has the block's family. They are asked in
// turn, `rows` first: of its smallest jobs a question more is the largest part.
#![tactic(auto)]

ghost use Rattle.std.specs.Prelude.{◌≡◌};
ghost use Rattle.rules.specs.Width.{width_of};
ghost use Rattle.calls.specs.Meets.{CountMeets, WidthMeets, NumberAllMeets, NumberMeets, BuildAllMeets, BuildMeets};

use job::Refusal;
use lines::{Line, Unanswered};

// How many edges a job has (document 01, "Counts"). "1 Form: .. family not 1 to 7" is what is left where no crate has the family.
pub fn count(block: &[u8]) -> Result<u64, Refusal>
    ensures { CountMeets block.now result }
{
    if let Some(r) = rows::count(block) {
        return r;
    }
    if let Some(r) = arch::count(block) {
        return r;
    }
    if let Some(r) = grid::count(block) {
        return r;
    }
    Err(Refusal::Form)
}

// The least number of bits that holds every number below the count.
fn width_of(count: u64) -> u8
    ensures { result ≡ width_of count }
{
    let single: u64 = 1;
    if count <= single {
        return 0;
    }
    (64 - (count - 1).leading_zeros()) as u8
}

// The width of a job (document 01, "Counts").
pub fn width(block: &[u8]) -> Result<u8, Refusal>
    ensures { WidthMeets block.now result }
{
    Ok(width_of(count(block)?))
}

// The numbers of the edges of one lent slice, by where the first begins and each ends, up to the first that isn't valid, with the counts
// worked out once; nothing is looked at unless there is room for as many numbers.
// kept: bytes, from and ends, three parameters here, in the engines and in `walk_all`: README and `NumberAllMeets` have them so.
pub fn number_all(
    block: &[u8],
    bytes: &[u8],
    from: usize,
    ends: &[usize],
    numbers: &mut [u64],
) -> Result<usize, Unanswered>
    ensures { NumberAllMeets block.now bytes.now from ends.now numbers.old result numbers.new }
{
    if let Some(r) = rows::number_all(block, bytes, from, ends, numbers) {
        return r;
    }
    if let Some(r) = arch::number_all(block, bytes, from, ends, numbers) {
        return r;
    }
    if let Some(r) = grid::number_all(block, bytes, from, ends, numbers) {
        return r;
    }
    if numbers.len() < ends.len() {
        return Err(Unanswered::NoRoom);
    }
    Err(Unanswered::Refused(Refusal::Form))
}

// How many edges of the job stand before this one (document 01, "Order and numbers"): the number of a list of one, or "5 Not an edge" where
// none got one.
pub fn number(block: &[u8], edge: &[u8]) -> Result<u64, Refusal>
    ensures { NumberMeets block.now edge.now result }
{
    let mut numbers = [0u64; 1];
    let n = number_all(block, edge, 0, &[edge.len()], &mut numbers)?;
    let one = 1;
    if n == one {
        return Ok(numbers[0]);
    }
    Err(Refusal::NotEdge)
}

// The edges of a list of numbers, one after the other in steps, and where each ends, with the counts worked out once; nothing is looked at
// unless there is room for as many edges of any length.
pub fn build_all(
    block: &[u8],
    numbers: &[u64],
    steps: &mut [u8],
    ends: &mut [usize],
) -> Result<usize, Unanswered>
    ensures { BuildAllMeets block.now numbers.now steps.old ends.old result steps.new ends.new }
{
    if let Some(r) = rows::build_all(block, numbers, steps, ends) {
        return r;
    }
    if let Some(r) = arch::build_all(block, numbers, steps, ends) {
        return r;
    }
    if let Some(r) = grid::build_all(block, numbers, steps, ends) {
        return r;
    }
    if !lines::has_room(numbers.len(), steps.len(), ends.len()) {
        return Err(Unanswered::NoRoom);
    }
    Err(Unanswered::Refused(Refusal::Form))
}

// The edge of a number, written to the front of the output: straight to it where every edge fits, else by a buffer.
pub fn build(block: &[u8], number: u64, out: &mut [u8]) -> Result<usize, Refusal>
    ensures { BuildMeets block.now number out.old result out.new }
{
    let mut ends = [0usize; 1];
    let any_fits = Line::LONGEST <= out.len();
    if any_fits {
        return Ok(build_all(block, &[number], out, &mut ends)?);
    }
    let mut steps = [0u8; Line::LONGEST];
    let n = build_all(block, &[number], &mut steps, &mut ends)?;
    job::put(&steps[..n], out)
}
