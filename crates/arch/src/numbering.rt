// The numbers of a list of edges, written: each edge is read once, with the counts that are lent.
ghost use Rattle.std.specs.Prelude.{◌≤◌, length, Ok};
ghost use Rattle.lines.specs.Lines.{cut_from};
ghost use Rattle.lines.specs.Known.{NumbersOf};
ghost use Rattle.arch.specs.Answers.{arch_job, RankOf};

use crate::parts::Parts;
use crate::{forward, reverse};

// The number of one edge, from the last step where the family has no `D`.
fn rank(edge: &[u8], parts: &Parts) -> Option<u64>
    ensures { RankOf (arch_job parts.now.d parts.now.v parts.now.n) edge.now result }
{
    let d = parts.d;
    if d {
        return forward::number(edge, parts);
    }
    reverse::number(edge, parts)
}

// The numbers of the edges, up to the first string that is none.
// kept: a loop like it in `rows` and `grid`: of one for all, over a reader that it is lent, each call `requires` what the reader does, and no public
// function of a library has a `requires`.
pub(crate) fn number_each(
    parts: &Parts,
    bytes: &[u8],
    from: usize,
    ends: &[usize],
    numbers: &mut [u64],
) -> usize
    requires { length ends.now ≤ length numbers.old }
    ensures { NumbersOf (arch_job parts.now.d parts.now.v parts.now.n) (cut_from from ends.now bytes.now) numbers.old numbers.new (Ok result) }
{
    let mut at = from;
    for (i, &end) in ends.iter().enumerate() {
        let Some(r) = rank(lines::part(bytes, at, end), parts) else {
            return i;
        };
        numbers[i] = r;
        at = end;
    }
    ends.len()
}
