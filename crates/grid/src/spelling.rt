// The edges of a list of numbers of families 6 and 7: the table is filled once, so that refusal 4 goes before 6, and then each edge is spelt
// from its end.
ghost use Rattle.std.specs.Prelude.{◌≡◌, true, false, ◌≤◌, ◌<◌, length, get_or};
ghost use Rattle.rules.specs.Questions.{all_below};
ghost use Rattle.tables.specs.Spelling.{Front};
ghost use Rattle.tables.specs.Calls.{BuildsAs, Countable};
ghost use Rattle.tables.specs.Plans.{Narrow, end_for, RoomFor, edge_for, ListsFor, BuildsFor};
ghost use Rattle.grid.specs.Grids.{LaidOut, PreparedBy, BlankBy, ReadableBy};

use crate::edges::spell;
use crate::plan::{Grid, cells_of, grid_of, plan_of};
use crate::table::fill;
use job::Refusal;
use lines::Line;
use tables::{Plan, Shape};

// The edge of number r, to the front of steps; the answer is its length.
fn spell_front(val: &[u64], g: &Grid, p: Plan, r: u64, steps: &mut [u8]) -> usize
    requires { ReadableBy p g.now val.now × (r < get_or val.now (end_for p) 0) × (128 ≤ length steps.old) }
    ensures { Front (edge_for false p g.now.sa g.now.sc r) steps.old steps.new result }
{
    let mut buf = [0u8; Line::LONGEST];
    let at = spell(val, g, p, r, &mut buf);
    let n = Line::LONGEST - at;
    steps[..n].copy_from_slice(&buf[at..]);
    n
}

// The edges, one after the other, and where each ends; the answer is where the last one does.
// kept: a loop like it in `arch` and `rows`: of one for all, over a reader that it is lent, each call `requires` what the reader does, and no public
// function of a library has a `requires`.
fn spell_all(
    val: &[u64],
    g: &Grid,
    p: Plan,
    numbers: &[u64],
    steps: &mut [u8],
    ends: &mut [usize],
) -> usize
    requires { ReadableBy p g.now val.now × (all_below (get_or val.now (end_for p) 0) numbers.now ≡ true) × RoomFor numbers.now steps.old ends.old }
    ensures { ListsFor false p g.now.sa g.now.sc numbers.now steps.old ends.old steps.new ends.new result }
{
    let mut at: usize = 0;
    for (i, &r) in numbers.iter().enumerate() {
        let n = spell_front(val, g, p, r, &mut steps[at..]);
        at += n;
        ends[i] = at;
    }
    at
}

// The edges over a table that is still blank, or refusal 4 or 6.
fn spell_over(
    val: &mut [u64],
    g: &Grid,
    p: Plan,
    numbers: &[u64],
    steps: &mut [u8],
    ends: &mut [usize],
) -> Result<usize, Refusal>
    requires { BlankBy p g.now val.old × Narrow p × RoomFor numbers.now steps.old ends.old }
    ensures { BuildsFor false p g.now.sa g.now.sc numbers.now steps.old ends.old steps.new ends.new result }
{
    let count = fill(val, g, p).ok_or(Refusal::Over)?;
    if !lines::all_below(numbers, count) {
        return Err(Refusal::Beyond);
    }
    Ok(spell_all(val, g, p, numbers, steps, ends))
}

// The edges, over a table of that many cells.
fn spell_in<const CELLS: usize>(
    g: &Grid,
    p: Plan,
    numbers: &[u64],
    steps: &mut [u8],
    ends: &mut [usize],
) -> Result<usize, Refusal>
    requires { PreparedBy p g.now CELLS × (CELLS ≤ 3712) × Narrow p × RoomFor numbers.now steps.old ends.old }
    ensures { BuildsFor false p g.now.sa g.now.sc numbers.now steps.old ends.old steps.new ends.new result }
{
    let mut val = [0u64; CELLS];
    spell_over(&mut val, g, p, numbers, steps, ends)
}

// The edges of the numbers by a plan, over a table of the smallest of five sizes that has room.
fn spell_planned(
    g: &Grid,
    p: Plan,
    numbers: &[u64],
    steps: &mut [u8],
    ends: &mut [usize],
) -> Result<usize, Refusal>
    requires { LaidOut p g.now × RoomFor numbers.now steps.old ends.old }
    ensures { BuildsFor false p g.now.sa g.now.sc numbers.now steps.old ends.old steps.new ends.new result }
{
    let cells = cells_of(p);
    if cells <= 128 {
        return spell_in::<128>(g, p, numbers, steps, ends);
    }
    if cells <= 384 {
        return spell_in::<384>(g, p, numbers, steps, ends);
    }
    if cells <= 1280 {
        return spell_in::<1280>(g, p, numbers, steps, ends);
    }
    if cells <= 2496 {
        return spell_in::<2496>(g, p, numbers, steps, ends);
    }
    spell_in::<3712>(g, p, numbers, steps, ends)
}

// The edges of the numbers of a job of this shape, or refusal 4 or 6.
pub(crate) fn spell_edges(
    shape: Option<Shape>,
    numbers: &[u64],
    steps: &mut [u8],
    ends: &mut [usize],
) -> Result<usize, Refusal>
    requires { Countable shape × RoomFor numbers.now steps.old ends.old }
    ensures { BuildsAs shape numbers.now steps.old ends.old steps.new ends.new result }
{
    let Some(s) = &shape else {
        if numbers.len() != 0 {
            return Err(Refusal::Beyond);
        }
        return Ok(0);
    };
    let p = plan_of(s);
    let g = grid_of(s, p);
    spell_planned(&g, p, numbers, steps, ends)
}
