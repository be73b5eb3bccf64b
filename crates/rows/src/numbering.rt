// The numbers of edges of families 1 and 3: the table is filled once, and then each edge is read once, from its end. The steps are written
// into the loop, which takes less time than to lay them in lists.
ghost use Rattle.std.specs.Prelude.{◌≡◌, ◌≤◌, true, length};
ghost use Rattle.rules.specs.Blocks.{family_of, plain};
ghost use Rattle.lines.specs.Known.{NumbersOf};
ghost use Rattle.rows.specs.Meets.{NumberAllMeets};
ghost use Rattle.rows.specs.Strings.{strings};
ghost use Rattle.rows.specs.Plains.{plain_job, PlainRank, PlainRanks, PlainNumbers, PlainBlank, PlainReadable, PlainReady, PlainRange};

use crate::plain::Plain;
use crate::table::{Table, fill_rows};
use job::{Refusal, Step};
use lines::Unanswered;

// Strings that stand one after the other: where the first begins, and each ends.
#[derive(Clone, Copy)]
pub(crate) struct Strings<'a> {
    pub bytes: &'a [u8],
    pub from: usize,
    pub ends: &'a [usize],
}

impl<'a> Table<'a> {
    // The number of the edge e (000, algorithms 1 and 5), or that e is none. No walk leads to a cell of 0, and a step out of the grid
    // leads to one, so neither the column nor the height is kept. Only D from the start would leave the table. Until it is known whether
    // e is an edge the sum fits all the same: with the walks to the cell it is no more than the count.
    fn read(self, e: &[u8]) -> Option<u64>
        requires { PlainReadable self.plain self.val.now }
        ensures { PlainRank self.entry.plain e.now result }
    {
        let Table { val, plain } = self;
        let north = plain.north();
        let east = plain.east();
        let mut acc: u64 = 0;
        let mut at = plain.end();
        for &b in e.iter().rev() {
            if val[at] == 0 {
                return None;
            }
            if b == Step::NORTH {
                at -= north;
                continue;
            }
            if b == Step::EAST {
                acc += val[at - north];
                at -= east;
                continue;
            }
            if !plain.is_across(b) {
                return None;
            }
            if at < north + east {
                return None;
            }
            acc += val[at - north] + val[at - east];
            at -= north + east;
        }
        if at != plain.stride() + 1 {
            return None;
        }
        Some(acc)
    }

    // The numbers of the edges, up to the first string that is none; the answer is how many.
    // kept: a loop like it in `arch` and `grid`: of one for all, over a reader that it is lent, each call `requires` what the reader does, and no public
    // function of a library has a `requires`.
    fn number_each(self, s: Strings, numbers: &mut [u64]) -> usize
        requires { PlainReadable self.plain self.val.now × (length s.ends.now ≤ length numbers.old) }
        ensures { PlainRanks self.entry.plain (strings s.entry) numbers.old numbers.new result }
    {
        let Strings { bytes, from, ends } = s;
        let mut at = from;
        for (i, &end) in ends.iter().enumerate() {
            let Some(r) = self.read(lines::part(bytes, at, end)) else {
                return i;
            };
            numbers[i] = r;
            at = end;
        }
        ends.len()
    }
}

// The numbers of the edges over a table that is still blank, or refusal 4.
fn number_in(val: &mut [u64], c: Plain, s: Strings, numbers: &mut [u64]) -> Result<usize, Refusal>
    requires { PlainBlank c val.old × (length s.ends.now ≤ length numbers.old) }
    ensures { PlainNumbers c (strings s.entry) numbers.old numbers.new result }
{
    fill_rows(val, c).ok_or(Refusal::Over)?;
    Ok(Table { val, plain: c }.number_each(s, numbers))
}

// The numbers of the edges, in a table of that many cells.
fn number_with<const CELLS: usize>(
    c: Plain,
    s: Strings,
    numbers: &mut [u64],
) -> Result<usize, Refusal>
    requires { PlainReady c CELLS × (CELLS ≤ 3712) × (length s.ends.now ≤ length numbers.old) }
    ensures { PlainNumbers c (strings s.entry) numbers.old numbers.new result }
{
    let mut val = [0u64; CELLS];
    number_in(&mut val, c, s, numbers)
}

// The numbers of the edges of a job, up to the first string that is none, or refusal 4. The table is of the smallest of four sizes that has
// room: clearing the largest takes as long as filling a small one.
fn number_edges(c: Plain, s: Strings, numbers: &mut [u64]) -> Result<usize, Refusal>
    requires { PlainRange c × (length s.ends.now ≤ length numbers.old) }
    ensures { NumbersOf (plain_job c) (strings s.entry) numbers.old numbers.new result }
{
    if Plain::HIGHEST < c.height() {
        return Err(Refusal::Over);
    }
    let cells = c.cells();
    if cells <= 128 {
        return number_with::<128>(c, s, numbers);
    }
    if cells <= 384 {
        return number_with::<384>(c, s, numbers);
    }
    if cells <= 1280 {
        return number_with::<1280>(c, s, numbers);
    }
    number_with::<3712>(c, s, numbers)
}

// The numbers of the edges of one lent slice, of a block whose family is 1 or 3.
pub(crate) fn number_own(block: &[u8], s: Strings, numbers: &mut [u64]) -> Result<usize, Unanswered>
    requires { plain (family_of block.now) ≡ true }
    ensures { NumberAllMeets block.now s.entry.bytes.now s.entry.from s.entry.ends.now numbers.old (Some result) numbers.new }
{
    if numbers.len() < s.ends.len() {
        return Err(Unanswered::NoRoom);
    }
    let c = Plain::of(block)?;
    Ok(number_edges(c, s, numbers)?)
}
