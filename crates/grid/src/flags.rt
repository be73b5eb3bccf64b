// Cells with a flag beside each: where a count needs more than 64 bits the flag is 1.
ghost use Rattle.std.specs.Prelude.{◌≡◌, ◌<◌, length};
ghost use Rattle.tables.specs.Cells.{cell_at, Put};
ghost use Rattle.tables.specs.Filling.{Parts, Totals};

use crate::column::source;
use crate::plan::Grid;
use job::Job;

pub(crate) fn cell(val: &[u64], ov: &[u8], i: usize) -> Option<u64>
    requires { (i < length val.now) × (i < length ov.now) }
    ensures { result ≡ cell_at val.now ov.now i }
{
    if ov[i] == 0 { Some(val[i]) } else { None }
}

// Cell i says r.
pub(crate) fn put(val: &mut [u64], ov: &mut [u8], i: usize, r: Option<u64>)
    requires { (i < length val.old) × (i < length ov.old) }
    ensures { Put val.old ov.old val.new ov.new i r }
{
    match r {
        Some(v) => {
            val[i] = v;
            ov[i] = 0;
        }
        None => {
            val[i] = 0;
            ov[i] = 1;
        }
    }
}

// What the eight steps bring to the cell at `at` of column x.
pub(crate) fn total(val: &[u64], ov: &[u8], g: &Grid, x: usize, at: usize) -> Option<u64>
    requires { Parts g.now.sa g.now.off val.now ov.now x at }
    ensures { Totals g.now.sa g.now.off val.now ov.now x at result }
{
    let mut acc: u64 = 0;
    for i in 0..Job::STEPS {
        let s = source(g, i, x, at);
        let v = cell(val, ov, s)?;
        acc = acc.checked_add(v)?;
    }
    Some(acc)
}
