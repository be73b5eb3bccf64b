// Steps in lower heights: how far they lie above the slope of the least steep step, or below that of the steepest.
ghost use Rattle.std.specs.Prelude.{true, false, ◌≡◌, ◌+◌, ◌*◌, ◌≤◌, T};
ghost use Rattle.tables.specs.Form.{Slight};
ghost use Rattle.tables.specs.Shapes.{Fenced};
ghost use Rattle.tables.specs.Heights.{Lifted, Beside, Height, Bounds, Heights, Turned};

use job::Job;
use tables::{Shape, Wall};

// The lesser of d and the slope of a step, rounded down.
fn gentler(d: usize, a: usize, c: usize) -> usize
    requires { (1 ≤ a) × (a ≤ 3) }
    ensures { (result ≤ d) × (result * a ≤ c) }
{
    if a == 1 {
        return d.min(c);
    }
    if a == 2 {
        return d.min(c / 2);
    }
    d.min(c / 3)
}

// The greater of d and the slope of a step, rounded up.
fn steeper(d: usize, a: usize, c: usize) -> usize
    requires { (d ≤ 6) × (1 ≤ a) × (a ≤ 3) × (c ≤ 3 * a + 3) }
    ensures { (d ≤ result) × (result ≤ 6) × (c ≤ result * a) }
{
    if a == 1 {
        return d.max(c);
    }
    if a == 2 {
        return d.max((c + 1) / 2);
    }
    d.max((c + 2) / 3)
}

// The lowest slope of the steps, rounded down.
pub(crate) fn lowest(s: &Shape) -> usize
    requires { Lifted s.now.k s.now.sa s.now.sc }
    ensures { Bounds false result s.now.k s.now.sa s.now.sc }
{
    let mut d: usize = 6;
    for i in 0..s.k {
        d = gentler(d, s.sa[i], s.sc[i]);
    }
    d
}

// The highest, rounded up; the slope of the shape's wall where that is higher.
pub(crate) fn highest(s: &Shape) -> usize
    requires { Lifted s.now.k s.now.sa s.now.sc × (s.now.wall.slope ≤ 3) }
    ensures { Bounds true result s.now.k s.now.sa s.now.sc × (s.now.wall.slope ≤ result) }
{
    let mut d = s.wall.slope;
    for i in 0..s.k {
        d = steeper(d, s.sa[i], s.sc[i]);
    }
    d
}

// How far the height y lies above the level, or below it where mirrored.
pub(crate) fn height(mirrored: bool, y: usize, level: usize) -> usize
    requires { Beside mirrored y level }
    ensures { Height mirrored y level result }
{
    if mirrored {
        return level - y;
    }
    y - level
}

// The same of each of the steps, from the slope d; in eight turns, which the compiler unrolls.
pub(crate) fn heights(s: &Shape, mirrored: bool, d: usize) -> [usize; Job::STEPS]
    requires { Lifted s.now.k s.now.sa s.now.sc × Bounds mirrored d s.now.k s.now.sa s.now.sc }
    ensures { Heights mirrored d s.now.sa s.now.sc result s.now.k }
{
    let mut up = [0usize; Job::STEPS];
    for i in 0..Job::STEPS {
        if i < s.k {
            let level = d * s.sa[i];
            up[i] = height(mirrored, s.sc[i], level);
        }
    }
    up
}

// The fence f seen from the slope d: one that is no steeper lies below every height, and a mirrored one is a roof.
pub(crate) fn wall(mirrored: bool, f: Wall, d: usize) -> Wall
    requires { Fenced f × (d ≤ 6) × (T mirrored → f.slope ≤ d) }
    ensures { Slight result × Turned mirrored f d result }
{
    if f.slope == 0 {
        return f;
    }
    if mirrored {
        return Wall {
            roof: true,
            slope: d - f.slope,
            start: f.start,
        };
    }
    Wall {
        roof: false,
        slope: f.slope.saturating_sub(d),
        start: f.start,
    }
}
