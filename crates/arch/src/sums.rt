// The terms of a number that are sums of products of counts, and where a number falls among them.
ghost use Rattle.std.specs.Prelude.{◌≡◌, ◌≤◌, ◌<◌, ◌+◌, ◌/◌, ◌%◌};
ghost use Rattle.arches.specs.Counts.{if_d, count, before};
ghost use Rattle.arch.specs.Table.{Table};
ghost use Rattle.arch.specs.Sums.{offset, Falls};

use crate::parts::Parts;

// The count of those that end in `D`, if there are any.
// kept: table, d and v are lent one by one here, in `locate` and in `builder`: by `&Parts` a build takes 17 to 23% more instructions.
pub(crate) fn d_count(table: &[u64; 46], d: bool, v: usize, n: usize, k: usize) -> u64
    requires { Table d v n table.now × (k ≤ n) }
    ensures { result ≡ if_d d (count d v k) }
{
    if d { table[k] } else { 0 }
}

impl Parts {
    // The count for n.
    pub(crate) fn last(&self) -> u64
        ensures { result ≡ count self.now.d self.now.v self.now.n }
    {
        self.table[self.n]
    }

    // The products for the sizes below i of a first part, where the two parts come to m.
    fn products(&self, m: usize, i: usize) -> u64
        requires { (m + self.now.v < self.now.n) × (i ≤ m) }
        ensures { result ≡ before self.now.d self.now.v m i }
    {
        let mut sum: u64 = 0;
        for j in 0..i {
            sum += self.table[j] * self.table[m - j];
        }
        sum
    }

    // How many paths of the same size stand before those with a first part of size i: summed from the shorter side.
    pub(crate) fn lower(&self, m: usize, i: usize) -> u64
        requires { (m + self.now.v < self.now.n) × (i ≤ m) }
        ensures { result ≡ offset self.now.d self.now.v m i }
    {
        let j = m + 1 - i;
        if i <= j {
            let s = self.products(m, i);
            let h = d_count(&self.table, self.d, self.v, self.n, m + self.v);
            h + s
        } else {
            let s = self.products(m, j);
            self.table[m + self.v + 1] - s
        }
    }
}

// The size of the first part at which a number falls, and what is left of the number there.
#[derive(Drop)]
pub(crate) struct Spot {
    pub(crate) at: usize,
    pub(crate) rest: u64,
}

// Where r falls among the products, looked for from both sides; b is what stands above it.
pub(crate) fn locate(
    table: &[u64; 46],
    d: bool,
    v: usize,
    n: usize,
    m: usize,
    r: u64,
    b: u64,
) -> Spot
    requires { Table d v n table.now × (m + v < n) × (r + b + 1 ≡ before d v m (m + 1)) }
    ensures { Falls d v m r result.at result.rest }
{
    let mut l: usize = 0;
    let mut h = m;
    let mut low = r;
    let mut high = b;
    // kept: it ends by a return alone, and a `for` over both sides needs a value behind it.
    loop {
        let p = table[l] * table[h];
        if low < p {
            return Spot { at: l, rest: low };
        }
        if high < p {
            return Spot {
                at: h,
                rest: p - 1 - high,
            };
        }
        low -= p;
        high -= p;
        l += 1;
        h -= 1;
    }
}

// rest / c; most often rest is below c, and a division is slow.
pub(crate) fn times(rest: u64, c: u64) -> u64
    requires { 0 < c }
    ensures { result ≡ rest / c }
{
    if rest < c { 0 } else { rest / c }
}

// rest % c, the same way.
pub(crate) fn left_over(rest: u64, c: u64) -> u64
    requires { 0 < c }
    ensures { result ≡ rest % c }
{
    if rest < c { rest } else { rest % c }
}
