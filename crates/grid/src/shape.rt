// From a job of family 6 or 7 to the grid's form of it: the shear (x, y + 3x), and then the heights that put the end lowest, so that the
// table is small.
ghost use Rattle.std.specs.Prelude.{◌≡◌, true, Some};
ghost use Rattle.howmany.specs.Choose.{pick};
ghost use Rattle.rules.specs.Blocks.{paired, fenced};
ghost use Rattle.job.specs.Stands.{family_number};
ghost use Rattle.tables.specs.Form.{fence_of};
ghost use Rattle.tables.specs.Shapes.{Owned, Ranged, Fenced, ShapedFor, Gentle, Lowered, View, Chosen};

use crate::heights::{height, heights, highest, lowest, wall};
use job::{Family, Job};
use tables::{Shape, Wall};

// The job's own heights; f is its fence. An end below -3n can't be reached. The loop has eight turns whatever k is: so the compiler
// unrolls it and keeps the steps in registers, where as bytes written and read back they would wait for each other.
fn own_shape(job: Job, f: Wall) -> Option<Shape>
    requires { Ranged job }
    ensures { Owned job f result }
{
    let n = usize::from(job.n);
    let up = usize::from(job.m) + 3 * n;
    let ey = up.checked_sub(Job::GROUND)?;
    let k = usize::from(job.k);
    let a = job.a;
    let b = job.b;
    let mut sa = [100usize; Job::STEPS];
    let mut sc = [0usize; Job::STEPS];
    for i in 0..Job::STEPS {
        if i < k {
            let x = usize::from(a[i]);
            sa[i] = x;
            sc[i] = usize::from(b[i]) + 3 * x - Job::GROUND;
        }
    }
    Some(Shape {
        k,
        wall: f,
        top: 12,
        ex: n,
        ey,
        sa,
        sc,
    })
}

// The shape s slid down by d a column, or mirrored at the slope d.
fn seen(mut s: Shape, mirrored: bool, d: usize) -> Shape
    requires { View mirrored d s }
    ensures { Lowered s (Some result) }
{
    let level = d * s.ex;
    s.sc = heights(&s, mirrored, d);
    s.wall = wall(mirrored, s.wall, d);
    s.ey = height(mirrored, s.ey, level);
    s
}

// The shape s with its end as low as it can be: above the least steep step, or below the steepest. None where nothing leads to the end.
fn lowered(s: Shape) -> Option<Shape>
    requires { Gentle s }
    ensures { Lowered s result }
{
    let y = s.ey;
    let low = lowest(&s);
    let high = highest(&s);
    let floor = low * s.ex;
    let ceiling = high * s.ex;
    if y < floor {
        return None;
    }
    if ceiling < y {
        return None;
    }
    if ceiling - y < y - floor {
        return Some(seen(s, true, high));
    }
    Some(seen(s, false, low))
}

// The shape of a job; f is its fence.
fn directed_shape(job: Job, f: Wall) -> Option<Shape>
    requires { Ranged job × Fenced f }
    ensures { Chosen job f result }
{
    lowered(own_shape(job, f)?)
}

// Family 7 stays at y ≥ 0, which is the slope 3 in the job's own heights; family 6 has no fence.
fn fence_of(family: Family) -> Wall
    ensures { result ≡ fence_of (pick (fenced (family_number family)) 3 0) 0 }
{
    let slope = if family == Family::Fenced { 3 } else { 0 };
    Wall {
        roof: false,
        slope,
        start: 0,
    }
}

// A job of family 6 or 7 in the grid's form; none where nothing leads to its end.
pub(crate) fn shape_of(job: Job) -> Option<Shape>
    requires { Ranged job × (paired (family_number job.family) ≡ true) }
    ensures { ShapedFor job result }
{
    let fence = fence_of(job.family);
    directed_shape(job, fence)
}
