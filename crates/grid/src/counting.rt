// The count of families 6 and 7, in a table of the smallest of four sizes that has room: clearing the largest takes as long as filling a
// small one.
ghost use Rattle.std.specs.Prelude.{◌≡◌, ◌≤◌};
ghost use Rattle.tables.specs.Calls.{Countable, CountsAs};
ghost use Rattle.tables.specs.Plans.{Narrow, count_for};
ghost use Rattle.grid.specs.Grids.{LaidOut, PreparedBy};

use crate::plan::{Grid, cells_of, grid_of, plan_of};
use crate::table::fill;
use job::Refusal;
use tables::{Plan, Shape};

// How many walks lead to the plan's end, by a table of that many cells.
fn count_in<const CELLS: usize>(g: &Grid, p: Plan) -> Option<u64>
    requires { PreparedBy p g.now CELLS × (CELLS ≤ 3712) × Narrow p }
    ensures { result ≡ count_for p g.now.sa g.now.sc }
{
    let mut val = [0u64; CELLS];
    fill(&mut val, g, p)
}

// How many walks lead to the plan's end.
// kept: three functions choose a size like this: it is a const argument of what each calls, and no closure has const parameters to take it
fn count_walks(g: &Grid, p: Plan) -> Option<u64>
    requires { LaidOut p g.now }
    ensures { result ≡ count_for p g.now.sa g.now.sc }
{
    let cells = cells_of(p);
    if cells <= 128 {
        return count_in::<128>(g, p);
    }
    if cells <= 384 {
        return count_in::<384>(g, p);
    }
    if cells <= 1280 {
        return count_in::<1280>(g, p);
    }
    count_in::<3712>(g, p)
}

// The count of a job of this shape, or refusal 4.
pub(crate) fn count(shape: Option<Shape>) -> Result<u64, Refusal>
    requires { Countable shape }
    ensures { CountsAs shape result }
{
    let Some(s) = &shape else {
        return Ok(0);
    };
    let p = plan_of(s);
    let g = grid_of(s, p);
    count_walks(&g, p).ok_or(Refusal::Over)
}
