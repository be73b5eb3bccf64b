// The edge of a number, spelt from its last step: algorithms 4, 8 and 10.
ghost use Rattle.std.specs.Prelude.{◌≡◌, ◌≤◌, ◌<◌, ◌+◌, length};
ghost use Rattle.arches.specs.Counts.{count};
ghost use Rattle.arch.specs.Table.{Table};
ghost use Rattle.arch.specs.Answers.{Spelt, EdgeInFront};

use crate::parts::Parts;
use crate::sums::{d_count, left_over, locate, times};
use job::Step;
use lines::Line;

// Spells the path of number r so that it ends before `end`, and says where it begins.
#[cycle(ending_inside_spell)]
fn spell(
    buf: &mut [u8; Line::LONGEST],
    table: &[u64; 46],
    d: bool,
    v: usize,
    end: usize,
    n: usize,
    r: u64,
) -> usize
    requires { Table d v n table.now × (r < count d v n) × (n + n ≤ end) × (end ≤ 128) × (length buf.old ≡ 128) }
    ensures { Spelt d v n r buf.old buf.new end result }
{
    if n == 0 {
        return end;
    }
    ending(buf, table, d, v, end - 1, n, r)
}

// The same for a path that is not empty, whose last step stands at `last`. The first part comes last, so that it is spelt in a loop.
#[cycle(ending_inside_spell)]
fn ending(
    buf: &mut [u8; Line::LONGEST],
    table: &[u64; 46],
    d: bool,
    v: usize,
    last: usize,
    n: usize,
    r: u64,
) -> usize
    requires { Table d v n table.now × (r < count d v n) × (n + n ≤ last + 1) × (last < 128) × (length buf.old ≡ 128) × (0 < n) }
    ensures { Spelt d v n r buf.old buf.new (last + 1) result }
{
    let head = d_count(table, d, v, n, n - 1);
    if r < head {
        buf[last] = Step::DIAGONAL;
        return spell(buf, table, d, v, last, n - 1, r);
    }
    let m = n - 1 - v;
    let p = locate(table, d, v, n, m, r - head, table[n] - 1 - r);
    let i = p.at;
    let rest = p.rest;
    let c = table[i];
    let x = left_over(rest, c);
    let y = times(rest, c);
    buf[last] = Step::NORTH;
    let east = inside(buf, table, d, v, last, m - i, y) - 1;
    buf[east] = Step::EAST;
    spell(buf, table, d, v, east, i, x)
}

// The inside of an arch: most are empty, and then there is no call.
#[cycle(ending_inside_spell)]
fn inside(
    buf: &mut [u8; Line::LONGEST],
    table: &[u64; 46],
    d: bool,
    v: usize,
    end: usize,
    n: usize,
    r: u64,
) -> usize
    requires { Table d v n table.now × (r < count d v n) × (n + n ≤ end) × (end ≤ 128) × (length buf.old ≡ 128) }
    ensures { Spelt d v n r buf.old buf.new end result }
{
    if n == 0 {
        return end;
    }
    spell(buf, table, d, v, end, n, r)
}

// Writes the edge of number r to the front of out, and says how long it is.
pub(crate) fn build(out: &mut [u8], parts: &Parts, r: u64) -> usize
    requires { (r < count parts.now.d parts.now.v parts.now.n) × (parts.now.n + parts.now.n ≤ length out.old) }
    ensures { EdgeInFront parts.now.d parts.now.v parts.now.n r out.old out.new result }
{
    let mut buf = [0u8; Line::LONGEST];
    let from = spell(
        &mut buf,
        &parts.table,
        parts.d,
        parts.v,
        Line::LONGEST,
        parts.n,
        r,
    );
    let k = Line::LONGEST - from;
    out[..k].copy_from_slice(&buf[from..]);
    k
}
