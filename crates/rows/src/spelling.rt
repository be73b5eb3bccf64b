// The edges of a list of numbers of families 1 and 3: the table is filled once, so that refusal 4 goes before 6, and then each edge is spelt
// from its end. The steps are written into the loop, which takes less time than to lay them in lists.
ghost use Rattle.std.specs.Prelude.{◌≡◌, ◌<◌, ◌≤◌, true, length, drop};
ghost use Rattle.rules.specs.Blocks.{family_of, plain};
ghost use Rattle.rules.specs.Questions.{all_below};
ghost use Rattle.lines.specs.Known.{BuildsOf};
ghost use Rattle.tables.specs.Plans.{RoomFor};
ghost use Rattle.tables.specs.Spelling.{Front};
ghost use Rattle.rows.specs.Meets.{BuildAllMeets};
ghost use Rattle.rows.specs.Plains.{plain_job, plain_walks, plain_edge, PlainBlank, PlainReadable, PlainReady, PlainLists, PlainBuilds, PlainRange};

use crate::plain::Plain;
use crate::table::{Table, fill_rows};
use job::{Refusal, Step};
use lines::{Line, Unanswered};

impl<'a> Table<'a> {
    // The edge of number r, at the end of buf (000, algorithms 2 and 6); the answer is where it starts.
    fn spell(self, r: u64, buf: &mut [u8]) -> usize
        requires { PlainReadable self.plain self.val.now × (r < plain_walks self.plain) × (length buf.old ≡ 128) }
        ensures { (result ≤ 128) × (drop result buf.new ≡ plain_edge self.entry.plain r) }
    {
        let Table { val, plain } = self;
        let north = plain.north();
        let east = plain.east();
        let mut x = plain.width();
        let mut at = plain.end();
        let mut left = r;
        let mut s: usize = Line::LONGEST;
        // kept: x falls by 1, or by 2 at a D, so no range counts the turns
        while 0 < x {
            s -= 1;
            let a = val[at - north];
            if left < a {
                buf[s] = Step::NORTH;
                x -= 1;
                at -= north;
                continue;
            }
            left -= a;
            let b = val[at - east];
            if left < b {
                buf[s] = Step::EAST;
                x -= 1;
                at -= east;
                continue;
            }
            left -= b;
            buf[s] = Step::DIAGONAL;
            x -= 2;
            at -= north + east;
        }
        s
    }

    // The edge of number r, to the front of steps; the answer is its length.
    fn spell_front(self, r: u64, steps: &mut [u8]) -> usize
        requires { PlainReadable self.plain self.val.now × (r < plain_walks self.plain) × (128 ≤ length steps.old) }
        ensures { Front (plain_edge self.entry.plain r) steps.old steps.new result }
    {
        let mut buf = [0u8; Line::LONGEST];
        let at = self.spell(r, &mut buf);
        let n = Line::LONGEST - at;
        steps[..n].copy_from_slice(&buf[at..]);
        n
    }

    // The edges, one after the other, and where each ends; the answer is where the last one does.
    // kept: a loop like it in `arch` and `grid`: of one for all, over a reader that it is lent, each call `requires` what the reader does, and no public
    // function of a library has a `requires`.
    fn spell_all(self, numbers: &[u64], steps: &mut [u8], ends: &mut [usize]) -> usize
        requires { PlainReadable self.plain self.val.now × (all_below (plain_walks self.plain) numbers.now ≡ true) × RoomFor numbers.now steps.old ends.old }
        ensures { PlainLists self.entry.plain numbers.now steps.old ends.old steps.new ends.new result }
    {
        let mut at: usize = 0;
        for (i, &r) in numbers.iter().enumerate() {
            let n = self.spell_front(r, &mut steps[at..]);
            at += n;
            ends[i] = at;
        }
        at
    }
}

// The edges over a table that is still blank, or refusal 4 or 6.
fn spell_in(
    val: &mut [u64],
    c: Plain,
    numbers: &[u64],
    steps: &mut [u8],
    ends: &mut [usize],
) -> Result<usize, Refusal>
    requires { PlainBlank c val.old × RoomFor numbers.now steps.old ends.old }
    ensures { PlainBuilds c numbers.now steps.old ends.old steps.new ends.new result }
{
    let count = fill_rows(val, c).ok_or(Refusal::Over)?;
    if !lines::all_below(numbers, count) {
        return Err(Refusal::Beyond);
    }
    Ok(Table { val, plain: c }.spell_all(numbers, steps, ends))
}

// The edges, over a table of that many cells.
fn spell_with<const CELLS: usize>(
    c: Plain,
    numbers: &[u64],
    steps: &mut [u8],
    ends: &mut [usize],
) -> Result<usize, Refusal>
    requires { PlainReady c CELLS × (CELLS ≤ 3712) × RoomFor numbers.now steps.old ends.old }
    ensures { PlainBuilds c numbers.now steps.old ends.old steps.new ends.new result }
{
    let mut val = [0u64; CELLS];
    spell_in(&mut val, c, numbers, steps, ends)
}

// The edges of the numbers of a job, or refusal 4 or 6, over a table of the smallest of four sizes that has room.
fn spell_edges(
    c: Plain,
    numbers: &[u64],
    steps: &mut [u8],
    ends: &mut [usize],
) -> Result<usize, Refusal>
    requires { PlainRange c × RoomFor numbers.now steps.old ends.old }
    ensures { BuildsOf (plain_job c) numbers.now steps.old ends.old steps.new ends.new result }
{
    if Plain::HIGHEST < c.height() {
        return Err(Refusal::Over);
    }
    let cells = c.cells();
    if cells <= 128 {
        return spell_with::<128>(c, numbers, steps, ends);
    }
    if cells <= 384 {
        return spell_with::<384>(c, numbers, steps, ends);
    }
    if cells <= 1280 {
        return spell_with::<1280>(c, numbers, steps, ends);
    }
    spell_with::<3712>(c, numbers, steps, ends)
}

// The edges of a list of numbers, of a block whose family is 1 or 3.
pub(crate) fn build_own(
    block: &[u8],
    numbers: &[u64],
    steps: &mut [u8],
    ends: &mut [usize],
) -> Result<usize, Unanswered>
    requires { plain (family_of block.now) ≡ true }
    ensures { BuildAllMeets block.now numbers.now steps.old ends.old (Some result) steps.new ends.new }
{
    if !lines::has_room(numbers.len(), steps.len(), ends.len()) {
        return Err(Unanswered::NoRoom);
    }
    let c = Plain::of(block)?;
    Ok(spell_edges(c, numbers, steps, ends)?)
}
