// What is found out of a shape before its table is filled.
ghost use Rattle.std.specs.Prelude.{◌≡◌, ◌*◌, ◌≤◌};
ghost use Rattle.tables.specs.Shapes.{FormOf};
ghost use Rattle.tables.specs.Table.{Few};
ghost use Rattle.tables.specs.Plans.{PlanOf, SizesFor, cells_for, start_for, end_for};
ghost use Rattle.grid.specs.Grids.{GridOf};

use job::Job;
use tables::{Plan, Shape};

// The steps of a shape, and how far back each one's cells lie. It is lent, and its plan goes beside it by value.
// kept: with the plan in it too, which is read anew after each write to the table, a count of 32 columns takes 6% more instructions
#[derive(Clone, Copy)]
pub(crate) struct Grid {
    pub(crate) sa: [usize; Job::STEPS],
    pub(crate) sc: [usize; Job::STEPS],
    pub(crate) off: [usize; Job::STEPS],
}

// The greater of hi and six times the slope of a step that is there.
fn steeper(hi: usize, a: usize, c: usize, ex: usize) -> usize
    requires { (hi ≤ 72) × (1 ≤ a) × (a ≤ ex → a ≤ 3) × (c ≤ 12) }
    ensures { (hi ≤ result) × (result ≤ 72) × (a ≤ ex → 6 * c ≤ result * a) }
{
    if ex < a {
        return hi;
    }
    if a == 1 {
        return hi.max(6 * c);
    }
    if a == 2 {
        return hi.max(3 * c);
    }
    hi.max(2 * c)
}

// The greater of deep and the height of a step that is there.
fn deeper(deep: usize, a: usize, c: usize, top: usize, ex: usize) -> usize
    requires { (deep ≤ top) × (c ≤ top) }
    ensures { (deep ≤ result) × (result ≤ top) × (a ≤ ex → c ≤ result) }
{
    if ex < a { deep } else { deep.max(c) }
}

fn is_few(sa: &[usize; Job::STEPS], ex: usize) -> bool
    ensures { Few result sa.now ex }
{
    sa[4..].iter().all(|a| ex < *a)
}

// The plan of a shape.
pub(crate) fn plan_of(s: &Shape) -> Plan
    requires { FormOf s.now }
    ensures { PlanOf s.now result }
{
    let mut hi: usize = 0;
    let mut deep: usize = 0;
    for i in 0..Job::STEPS {
        let a = s.sa[i];
        let c = s.sc[i];
        hi = steeper(hi, a, c, s.ex);
        deep = deeper(deep, a, c, s.top, s.ex);
    }
    let few = is_few(&s.sa, s.ex);
    let wall = s.wall;
    Plan {
        few,
        k: s.k,
        wall,
        top: s.top,
        hi,
        deep,
        ex: s.ex,
        ey: s.ey,
    }
}

// The grid of a shape and its plan.
pub(crate) fn grid_of(s: &Shape, p: Plan) -> Grid
    requires { PlanOf s.now p }
    ensures { GridOf s.now p result }
{
    let stride = p.deep + p.ey + 1;
    let mut off = [0usize; Job::STEPS];
    for i in 0..Job::STEPS {
        off[i] = s.sa[i] * stride + s.sc[i];
    }
    Grid {
        sa: s.sa,
        sc: s.sc,
        off,
    }
}

// How many cells the table has.
pub(crate) fn cells_of(p: Plan) -> usize
    requires { SizesFor p }
    ensures { result ≡ cells_for p }
{
    (p.ex + 2) * (p.deep + p.ey + 1)
}

// Where the start's cell stands.
pub(crate) fn start_of(p: Plan) -> usize
    requires { SizesFor p }
    ensures { result ≡ start_for p }
{
    p.deep + p.ey + 1 + p.deep
}

// Where the end's does.
pub(crate) fn end_of(p: Plan) -> usize
    requires { SizesFor p }
    ensures { result ≡ end_for p }
{
    (p.ex + 1) * (p.deep + p.ey + 1) + p.deep + p.ey
}
