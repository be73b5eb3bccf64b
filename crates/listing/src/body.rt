// The lines of a listing, with the counts worked out once for all of them.
ghost use Rattle.std.specs.Prelude.{◌≡◌, ◌++◌, length, min};
ghost use Rattle.listing.specs.Listing.{lines_text};
ghost use Rattle.listing.specs.Texts.{edge_at, Roomy, Bodied, LinesOf};

use crate::text::Text;
use std::array;

// "up to 1,000 lines"
const LINES: usize = 1000;

// The steps of as many edges, of which none has more than 128.
const STEPS: usize = 128000;

// How many lines a count gives.
fn shown_of(count: u64) -> usize
    ensures { result ≡ min count 1000 }
{
    count.min(LINES as u64) as usize
}

// A line for each of the edges, which lie one after the other in steps and end where ends says.
fn lines_of(steps: &[u8], ends: &[usize], text: &mut Text)
    requires { Roomy steps.now ends.now text.old }
    ensures { text.new ≡ text.old ++ lines_text (edge_at steps.now ends.now) (length ends.now) }
{
    let mut start = 0;
    for (i, end) in ends.iter().enumerate() {
        text.line(i as u64, &steps[start..*end]);
        start = *end;
    }
}

pub(crate) fn lines(block: &[u8], count: u64, text: &mut Text)
    requires { Bodied block.now count text.old 151000 }
    ensures { LinesOf block.now text.old text.new }
{
    let numbers: [u64; LINES] = array::from_fn(|i| i as u64);
    let mut steps = [0u8; STEPS];
    let mut ends = [0usize; LINES];
    let many = shown_of(count);
    match calls::build_all(block, &numbers[..many], &mut steps, &mut ends) {
        Ok(_) => lines_of(&steps, &ends[..many], text),
        Err(_) => unreachable!(), // each number is below the count, and there is room
    }
}
