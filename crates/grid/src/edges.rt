// Edges of families 6 and 7 from their end backwards: the number of an edge, and the edge of a number. A step that leads out of the grid ends in a
// zero, below a column or in front of all, so that the cell and the steps' offsets say all.
ghost use Rattle.std.specs.Prelude.{◌≡◌, false, ◌-◌, ◌≤◌, ◌<◌, length, get_or, drop};
ghost use Rattle.howmany.specs.Sum.{sum};
ghost use Rattle.letters.specs.Letters.{glyph_of};
ghost use Rattle.tables.specs.Edges.{brought_at, Summed, Sought};
ghost use Rattle.tables.specs.Plans.{end_for, RankFor, edge_for};
ghost use Rattle.grid.specs.Grids.{ReadableBy};

use crate::plan::{Grid, end_of, start_of};
use job::{Job, Step};
use letters::ordinal_of;
use lines::Line;
use tables::Plan;

// The byte of step i.
fn glyph_of(i: usize) -> u8
    requires { i < 8 }
    ensures { result ≡ glyph_of false i }
{
    (i + Step::FIRST as usize) as u8
}

// The cell that step i comes from, if it leads to the one at `at`; the first, which is a zero, where that would be before the table.
fn back(off: &[usize; Job::STEPS], i: usize, at: usize) -> usize
    requires { i < 8 }
    ensures { result ≡ at - get_or off.now i 0 }
{
    at.saturating_sub(off[i])
}

// What the first l steps bring to the cell at `at`.
fn part_sum(val: &[u64], off: &[usize; Job::STEPS], at: usize, l: usize) -> u64
    requires { Summed l off.now val.now at }
    ensures { result ≡ sum (brought_at off.now val.now at) l }
{
    let mut acc: u64 = 0;
    for i in 0..l {
        let s = back(off, i, at);
        acc += val[s];
    }
    acc
}

// The number of the edge e (001, algorithm 7), or that e is none. Until that is known the sum fits all the same: with the
// walks to the cell at `at` it is no more than the count.
pub(crate) fn read(val: &[u64], g: &Grid, p: Plan, e: &[u8]) -> Option<u64>
    requires { ReadableBy p g.now val.now }
    ensures { RankFor false p g.now.sa g.now.sc e.now result }
{
    let mut acc: u64 = 0;
    let mut at = end_of(p);
    if val[at] == 0 {
        return None; // no walk leads to the end
    }
    for i in (0..e.len()).rev() {
        let l = ordinal_of(false, e[i]);
        if p.k <= l {
            return None;
        }
        let from = back(&g.off, l, at);
        if val[from] == 0 {
            return None; // no walk leads there
        }
        acc += part_sum(val, &g.off, at, l);
        at = from;
    }
    if at != start_of(p) {
        return None;
    }
    Some(acc)
}

// A last step, the number of what stands before it, and the cell that it comes from.
#[derive(Drop)]
pub(crate) struct Pick {
    pub(crate) letter: usize,
    pub(crate) rest: u64,
    pub(crate) from: usize,
}

// The last step of number r among the walks that the cell at `at` counts. It is one of the first k; the loop is over all eight, so that the
// compiler unrolls it.
fn seek(val: &[u64], off: &[usize; Job::STEPS], k: usize, at: usize, r: u64) -> Pick
    requires summed { Summed k off.now val.now at }
    requires r_bound { r < sum (brought_at off.now val.now at) k }
    ensures { Sought (brought_at off.now val.now at) k r result.letter result.rest × (result.from ≡ at - get_or off.now result.letter 0) }
{
    let mut left = r;
    for i in 0..Job::STEPS {
        let s = back(off, i, at);
        let v = val[s];
        if left < v {
            return Pick {
                letter: i,
                rest: left,
                from: s,
            };
        }
        left -= v;
    }
    Pick {
        letter: 0,
        rest: 0,
        from: 0,
    }
}

// The edge of number r, at the end of buf (001, algorithm 8); the answer is where it starts.
pub(crate) fn spell(val: &[u64], g: &Grid, p: Plan, r: u64, buf: &mut [u8]) -> usize
    requires { ReadableBy p g.now val.now × (r < get_or val.now (end_for p) 0) × (length buf.old ≡ 128) }
    ensures { (result ≤ 128) × drop result buf.new ≡ edge_for false p g.now.sa g.now.sc r }
{
    let start = start_of(p);
    let mut at = end_of(p);
    let mut left = r;
    let mut s: usize = Line::LONGEST;
    // kept: it goes from cell to cell, by as many columns as a step has
    while at != start {
        let q = seek(val, &g.off, p.k, at, left);
        let l = q.letter;
        left = q.rest;
        s -= 1;
        buf[s] = glyph_of(l);
        at = q.from;
    }
    s
}
