// The table of families 6 and 7 filled column by column: first without tests, and with flags from the first column that could need them.
ghost use Rattle.std.specs.Prelude.{◌+◌};
ghost use Rattle.tables.specs.Plans.{Narrow};
ghost use Rattle.grid.specs.Grids.{BlankBy, UnflaggedBy, ColumnDoneBy, FilledToBy, UnfinishedBy, FlaggingBy, FlaggedBy, FlaggingSpanBy, FilledBy, SpansBy};

use crate::column::{column, is_small};
use crate::cone::{Ranges, ranges_of};
use crate::flags::{cell, put, total};
use crate::plan::{Grid, end_of, start_of};
use tables::Plan;

// Column x. Whether the next one can be summed without a test: two steps have no more than 2^32 walks in 32 columns, four no more than 2^60
// in 30, and eight in 20.
fn step(val: &mut [u64], g: &Grid, p: Plan, ranges: &Ranges, x: usize) -> bool
    requires unflagged { UnflaggedBy p g.now val.old x }
    requires spans_for { SpansBy p ranges.now }
    ensures { ColumnDoneBy p g.now val.new x result }
{
    let from = ranges.starts[x];
    let to = ranges.stops[x];
    if to <= from {
        return true;
    }
    let d = (x + 1) * (p.deep + p.ey + 1) + (p.deep + from);
    let n = to - from;
    if p.k <= 2 {
        column::<2>(val, g, x, d, n);
        return true;
    }
    if p.few {
        column::<4>(val, g, x, d, n);
        if x <= 30 {
            return true;
        }
        return is_small(val, d, n);
    }
    column::<8>(val, g, x, d, n);
    if x <= 20 {
        return true;
    }
    is_small(val, d, n)
}

// Column x, with a test at each sum.
fn slow(val: &mut [u64], ov: &mut [u8], g: &Grid, p: Plan, x: usize, from: usize, to: usize)
    requires { FlaggingSpanBy p g.now val.old ov.old x from to }
    ensures { FlaggedBy p g.now val.new ov.new (x + 1) }
{
    let column = (x + 1) * (p.deep + p.ey + 1);
    for y in from..to {
        let at = column + p.deep + y;
        let r = total(val, ov, g, x, at);
        put(val, ov, at, r);
    }
}

// Column x, if it has a height that matters.
fn turn(val: &mut [u64], ov: &mut [u8], g: &Grid, p: Plan, ranges: &Ranges, x: usize)
    requires flagging { FlaggingBy p g.now val.old ov.old x }
    requires spans_for { SpansBy p ranges.now }
    ensures { FlaggedBy p g.now val.new ov.new (x + 1) }
{
    let from = ranges.starts[x];
    let to = ranges.stops[x];
    if to <= from {
        return;
    }
    slow(val, ov, g, p, x, from, to);
}

// The columns that need no test; the answer is the first that is not filled.
fn fast(val: &mut [u64], g: &Grid, p: Plan, ranges: &Ranges) -> usize
    requires blank { BlankBy p g.now val.old }
    requires spans_for { SpansBy p ranges.now }
    ensures { FilledToBy p g.now val.new result }
{
    let start = start_of(p);
    val[start] = 1;
    for x in 1..p.ex + 1 {
        let small = step(val, g, p, ranges, x);
        if !small {
            return x + 1;
        }
    }
    p.ex + 1
}

// The columns from first on, with tests.
fn rest(val: &mut [u64], g: &Grid, p: Plan, ranges: &Ranges, first: usize) -> Option<u64>
    requires unfinished { UnfinishedBy p g.now val.old first }
    requires spans_for { SpansBy p ranges.now }
    ensures { FilledBy p g.now val.new result }
{
    let mut ov = [0u8; 3712];
    for x in first..p.ex + 1 {
        turn(val, &mut ov, g, p, ranges, x);
    }
    cell(val, &ov, end_of(p))
}

// All columns, by their bounds; the answer is the count at the end.
fn columns(val: &mut [u64], g: &Grid, p: Plan, ranges: &Ranges) -> Option<u64>
    requires blank { BlankBy p g.now val.old }
    requires spans_for { SpansBy p ranges.now }
    ensures { FilledBy p g.now val.new result }
{
    let next = fast(val, g, p, ranges);
    if next <= p.ex {
        return rest(val, g, p, ranges, next);
    }
    let end = end_of(p);
    let v = val[end];
    Some(v)
}

// The whole table; the answer is the count at the end.
pub(crate) fn fill(val: &mut [u64], g: &Grid, p: Plan) -> Option<u64>
    requires { BlankBy p g.now val.old × Narrow p }
    ensures { FilledBy p g.now val.new result }
{
    let ranges = ranges_of(p.wall, p.hi, p.ex, p.ey);
    columns(val, g, p, &ranges)
}
