// The numbers of edges of families 6 and 7: the table is filled once, and then each edge is read once, from its end.
ghost use Rattle.std.specs.Prelude.{false, ◌≤◌, length};
ghost use Rattle.lines.specs.Lines.{cut_from};
ghost use Rattle.lines.specs.Ranks.{FrontIn};
ghost use Rattle.tables.specs.Calls.{Countable, NumbersAs};
ghost use Rattle.tables.specs.Plans.{Narrow, valid_for, rank_for, NumbersFor};
ghost use Rattle.grid.specs.Grids.{LaidOut, PreparedBy, BlankBy, ReadableBy};

use crate::edges::read;
use crate::plan::{Grid, cells_of, grid_of, plan_of};
use crate::table::fill;
use job::Refusal;
use tables::{Plan, Shape};

// The numbers of the edges, up to the first string that is none; the answer is how many.
// kept: a loop like it in `arch` and `rows`: of one for all, over a reader that it is lent, each call `requires` what the reader does, and no public
// function of a library has a `requires`.
fn number_each(
    val: &[u64],
    g: &Grid,
    p: Plan,
    bytes: &[u8],
    from: usize,
    ends: &[usize],
    numbers: &mut [u64],
) -> usize
    requires { ReadableBy p g.now val.now × (length ends.now ≤ length numbers.old) }
    ensures { FrontIn (valid_for false p g.now.sa g.now.sc) (rank_for false p g.now.sa g.now.sc) (cut_from from ends.now bytes.now) numbers.old numbers.new result }
{
    let mut at = from;
    for (i, &end) in ends.iter().enumerate() {
        let Some(r) = read(val, g, p, lines::part(bytes, at, end)) else {
            return i;
        };
        numbers[i] = r;
        at = end;
    }
    ends.len()
}

// The numbers of the edges over a table that is still blank, or refusal 4.
// kept: bytes, from and ends come from the public call, and only `number_each` looks into them: a struct would be made to be taken apart
fn number_over(
    val: &mut [u64],
    g: &Grid,
    p: Plan,
    bytes: &[u8],
    from: usize,
    ends: &[usize],
    numbers: &mut [u64],
) -> Result<usize, Refusal>
    requires { BlankBy p g.now val.old × Narrow p × (length ends.now ≤ length numbers.old) }
    ensures { NumbersFor false p g.now.sa g.now.sc (cut_from from ends.now bytes.now) numbers.old numbers.new result }
{
    fill(val, g, p).ok_or(Refusal::Over)?;
    Ok(number_each(val, g, p, bytes, from, ends, numbers))
}

// The numbers of the edges, in a table of that many cells.
fn number_in<const CELLS: usize>(
    g: &Grid,
    p: Plan,
    bytes: &[u8],
    from: usize,
    ends: &[usize],
    numbers: &mut [u64],
) -> Result<usize, Refusal>
    requires { PreparedBy p g.now CELLS × (CELLS ≤ 3712) × Narrow p × (length ends.now ≤ length numbers.old) }
    ensures { NumbersFor false p g.now.sa g.now.sc (cut_from from ends.now bytes.now) numbers.old numbers.new result }
{
    let mut val = [0u64; CELLS];
    number_over(&mut val, g, p, bytes, from, ends, numbers)
}

// The numbers of the edges, in a table of the smallest of five sizes that has room.
fn number_planned(
    g: &Grid,
    p: Plan,
    bytes: &[u8],
    from: usize,
    ends: &[usize],
    numbers: &mut [u64],
) -> Result<usize, Refusal>
    requires { LaidOut p g.now × (length ends.now ≤ length numbers.old) }
    ensures { NumbersFor false p g.now.sa g.now.sc (cut_from from ends.now bytes.now) numbers.old numbers.new result }
{
    let cells = cells_of(p);
    if cells <= 128 {
        return number_in::<128>(g, p, bytes, from, ends, numbers);
    }
    if cells <= 384 {
        return number_in::<384>(g, p, bytes, from, ends, numbers);
    }
    if cells <= 1280 {
        return number_in::<1280>(g, p, bytes, from, ends, numbers);
    }
    if cells <= 2496 {
        return number_in::<2496>(g, p, bytes, from, ends, numbers);
    }
    number_in::<3712>(g, p, bytes, from, ends, numbers)
}

// The numbers of the edges of a job of this shape, up to the first string that is none, or refusal 4.
pub(crate) fn number_edges(
    shape: Option<Shape>,
    bytes: &[u8],
    from: usize,
    ends: &[usize],
    numbers: &mut [u64],
) -> Result<usize, Refusal>
    requires { Countable shape × (length ends.now ≤ length numbers.old) }
    ensures { NumbersAs shape (cut_from from ends.now bytes.now) numbers.old numbers.new result }
{
    let Some(s) = &shape else {
        return Ok(0);
    };
    let p = plan_of(s);
    let g = grid_of(s, p);
    number_planned(&g, p, bytes, from, ends, numbers)
}
