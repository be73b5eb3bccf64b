// The table of families 1 and 3 filled row by row: along a row each cell is the one before it and what the row below brings. No count
// before the end is above the end's, so the first that needs more than 64 bits ends the work.
ghost use Rattle.std.specs.Prelude.{◌≡◌, ◌-◌, ◌<◌, length, ◌==◌, slice_index, is_some};
ghost use Rattle.howmany.specs.Choose.{pick};
ghost use Rattle.tables.specs.Filling.{Filled};
ghost use Rattle.rows.specs.Rows.{Rowing, Rowed, Risen};
ghost use Rattle.rows.specs.Plains.{plain_plan, plain_right, plain_up, plain_back, PlainBlank};

use crate::plain::Plain;

// A filled table, and the end that it is filled for.
#[derive(Clone, Copy)]
pub(crate) struct Table<'a> {
    pub val: &'a [u64],
    pub plain: Plain,
}

// The first cell of row y, which stands at `at`: the one before it on the diagonal.
fn first(val: &[u64], stride: usize, y: usize, at: usize) -> u64
    requires { (stride < at) × (at - stride - 1 < length val.now) }
    ensures { result ≡ pick (y == 0) 1 (slice_index val.now (at - stride - 1)) }
{
    if y == 0 {
        return 1;
    }
    val[at - stride - 1]
}

// What the third step, if it is there, brings to the cell after the one at `at`.
fn across(val: &[u64], three: bool, stride: usize, at: usize) -> u64
    requires { (stride < at) × (at - stride - 1 < length val.now) }
    ensures { result ≡ pick three (slice_index val.now (at - stride - 1)) 0 }
{
    if three { val[at - stride - 1] } else { 0 }
}

// Row y, from column y on, or None where a count of it needs more than 64 bits.
fn row(val: &mut [u64], c: Plain, y: usize) -> Option<()>
    requires { Rowing (plain_plan c) (plain_right c) (plain_up c) (plain_back c) val.old y }
    ensures { Rowed (plain_plan c) (plain_right c) (plain_up c) val.new y (is_some result) }
{
    let stride = c.stride();
    let n = c.width() - c.height();
    let mut at = (y + 1) * stride + 1 + y;
    let mut sum = first(val, stride, y, at);
    val[at] = sum;
    for _ in 0..n {
        let a = val[at - 1];
        let b = across(val, c.diagonal, stride, at);
        let two = sum.checked_add(a)?;
        sum = two.checked_add(b)?;
        at += stride;
        val[at] = sum;
    }
    Some(())
}

// All rows, or None where the count at the end needs more than 64 bits.
fn all_rows(val: &mut [u64], c: Plain) -> Option<()>
    requires { PlainBlank c val.old }
    ensures { Risen (plain_plan c) (plain_right c) (plain_up c) val.new (is_some result) }
{
    for y in 0..=c.height() {
        row(val, c, y)?;
    }
    Some(())
}

// The whole table; the answer is the count at the end, or None where it needs more than 64 bits.
pub(crate) fn fill_rows(val: &mut [u64], c: Plain) -> Option<u64>
    requires { PlainBlank c val.old }
    ensures { Filled (plain_plan c) (plain_right c) (plain_up c) val.new result }
{
    all_rows(val, c)?;
    Some(val[c.end()])
}
