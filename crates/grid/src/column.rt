// A column of the table summed without a test. Cell (x, y) stands at (x + 1) * stride + deep + y: below each column deep zeros, before all a column of zeros.
ghost use Rattle.std.specs.Prelude.{◌≡◌, true, ℕ, ◌+◌, ◌^◌, ◌≤◌, ◌<◌, length, get_or};
ghost use Rattle.howmany.specs.Sum.{sum};
ghost use Rattle.tables.specs.Cells.{source_of, Run, Column};

use crate::plan::Grid;

pub(crate) fn source(g: &Grid, i: usize, x: usize, p: usize) -> usize
    requires i_bound { i < 8 }
    requires i_bound_2 { get_or g.now.sa i 0 ≤ x → get_or g.now.off i 0 ≤ p }
    ensures { result ≡ source_of g.now.sa g.now.off x p i }
{
    if x < g.sa[i] { 0 } else { p - g.off[i] }
}

// Where each of the first K steps finds what it brings to cell p of column x.
fn sources<const K: usize>(g: &Grid, x: usize, p: usize) -> [usize; K]
    requires few { K ≤ 8 }
    requires back { (i : ℕ) → i < K → get_or g.now.sa i 0 ≤ x → get_or g.now.off i 0 ≤ p }
    ensures { (i : ℕ) → i < K → get_or result i 0 ≡ source_of g.now.sa g.now.off x p i }
{
    let mut from = [0usize; K];
    for i in 0..K {
        from[i] = source(g, i, x, p);
    }
    from
}

// The sum of the cells i past those.
fn sum_past<const K: usize>(val: &[u64], from: &[usize; K], i: usize) -> u64
    requires inside { (j : ℕ) → j < K → get_or from.now j 0 + i < length val.now }
    requires fits { sum (λ j. get_or val.now (get_or from.now j 0 + i) 0) K < 2 ^ 64 }
    ensures { result ≡ sum (λ j. get_or val.now (get_or from.now j 0 + i) 0) K }
{
    let mut acc: u64 = 0;
    for j in 0..K {
        acc += val[from[j] + i];
    }
    acc
}

// Cells d to d + n, column x: each the sum of what the first K steps bring.
pub(crate) fn column<const K: usize>(val: &mut [u64], g: &Grid, x: usize, d: usize, n: usize)
    requires { (K ≤ 8) × Run K val.old g.now.sa g.now.off x d n }
    ensures { Column K val.old val.new g.now.sa g.now.off x d n }
{
    let from = sources::<K>(g, x, d);
    for i in 0..n {
        val[d + i] = sum_past::<K>(val, &from, i);
    }
}

// Whether no cell from d to d + n is above 2^61 - 1: the bits above are summed, which needs no comparison a cell.
pub(crate) fn is_small(val: &[u64], d: usize, n: usize) -> bool
    requires { d + n ≤ length val.now }
    ensures { result ≡ true → (i : ℕ) → i < n → get_or val.now (d + i) 0 ≤ 2305843009213693951 }
{
    let mut above: u64 = 0;
    for i in 0..n {
        above += val[d + i] / 2305843009213693952;
    }
    above == 0
}
