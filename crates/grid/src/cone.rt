// The heights of a column that matter: behind the wall, and such that the end can still be reached.
ghost use Rattle.std.specs.Prelude.{◌≡◌, false, ◌+◌, ◌*◌, ◌≤◌, ◌<◌, length};
ghost use Rattle.tables.specs.Form.{unwalled};
ghost use Rattle.tables.specs.Table.{Bounded, Fence, From, Roof, To, Spans};

use tables::Wall;

// The lowest height of column x that a fence allows.
fn fence_at(f: Wall, x: usize) -> usize
    requires { Bounded f × (x ≤ 97) }
    ensures { Fence f x result }
{
    if f.roof {
        return 0;
    }
    let rise = f.slope * x;
    rise.saturating_sub(f.start)
}

// The height y, or the highest of column x that a roof allows where that is lower.
fn roof_at(f: Wall, x: usize, y: usize) -> usize
    requires { Bounded f × (x ≤ 97) }
    ensures { Roof f x y result }
{
    if !f.roof {
        return y;
    }
    let roof = f.slope * x + f.start;
    roof.min(y)
}

// A sixth of hi * x, rounded down. Where hi is a multiple of six, as it is if the steepest step goes one column, a loop over x adds and never
// divides.
fn reach_of(hi: usize, x: usize) -> usize
    requires { (hi ≤ 1000) × (x ≤ 97) }
    ensures { (6 * result ≤ hi * x) × (hi * x < 6 * result + 6) }
{
    let slope = hi / 6;
    if slope * 6 == hi {
        slope * x
    } else {
        hi * x / 6
    }
}

// The lowest height of column x that matters.
pub(crate) fn from_at(f: Wall, hi: usize, ex: usize, ey: usize, x: usize) -> usize
    requires { Bounded f × (hi ≤ 1000) × (ex ≤ 97) × (ey ≤ 1000) × (x ≤ ex) }
    ensures { From f hi ex ey x result }
{
    let reach = reach_of(hi, ex - x);
    let fence = fence_at(f, x);
    // kept: as `fence.max(ey.saturating_sub(reach))` a count of family 7 takes up to 11% more instructions
    if ey <= fence + reach {
        return fence;
    }
    ey - reach
}

// Past the highest height of column x that matters.
pub(crate) fn to_at(f: Wall, hi: usize, ey: usize, x: usize) -> usize
    requires { Bounded f × (hi ≤ 1000) × (ey ≤ 1000) × (x ≤ 97) }
    ensures { To f hi ey x result }
{
    let reach = roof_at(f, x, reach_of(hi, x));
    reach.min(ey) + 1
}

// Where the heights of each column that matter begin, and end.
#[derive(Drop)]
pub(crate) struct Ranges {
    pub(crate) starts: [usize; 33],
    pub(crate) stops: [usize; 33],
}

// The ranges of the columns 1 to ex, worked out once: from a formula the compiler would work them out anew for each of its tests.
fn set_ranges(ranges: &mut Ranges, f: Wall, hi: usize, ex: usize, ey: usize)
    requires bounded { Bounded f × (hi ≤ 1000) × (ex ≤ 32) × (ey ≤ 1000) }
    requires room { (length ranges.old.starts ≡ 33) × (length ranges.old.stops ≡ 33) }
    ensures { Spans f hi ex ey ranges.new.starts ranges.new.stops (ex + 1) }
{
    for x in 1..ex + 1 {
        ranges.starts[x] = from_at(f, hi, ex, ey, x);
        ranges.stops[x] = to_at(f, hi, ey, x);
    }
}

// The ranges of the columns 1 to ex. They are set in place: a loop that fills what it returns isn't split by whether the wall is a roof.
pub(crate) fn ranges_of(f: Wall, hi: usize, ex: usize, ey: usize) -> Ranges
    requires { Bounded f × (hi ≤ 1000) × (ex ≤ 32) × (ey ≤ 1000) }
    ensures { Spans f hi ex ey result.starts result.stops (ex + 1) }
{
    let mut ranges = Ranges {
        starts: [0; 33],
        stops: [0; 33],
    };
    set_ranges(&mut ranges, f, hi, ex, ey);
    ranges
}
