// The edges of a list of numbers, written one after the other.
ghost use Rattle.std.specs.Prelude.{length};
ghost use Rattle.lines.specs.Lines.{Room};
ghost use Rattle.lines.specs.Known.{BuildsOf};
ghost use Rattle.arch.specs.Answers.{arch_job};

use crate::builder;
use crate::parts::Parts;
use job::Refusal;

// "6 Beyond", if any number is; else each edge is built where the one before it ends.
// kept: a loop like it in `rows` and `grid`: of one for all, over a reader that it is lent, each call `requires` what the reader does, and no public
// function of a library has a `requires`.
pub(crate) fn write_edges(
    parts: &Parts,
    numbers: &[u64],
    steps: &mut [u8],
    ends: &mut [usize],
) -> Result<usize, Refusal>
    requires { Room (length numbers.now) (length steps.old) (length ends.old) }
    ensures { BuildsOf (arch_job parts.now.d parts.now.v parts.now.n) numbers.now steps.old ends.old steps.new ends.new result }
{
    if !lines::all_below(numbers, parts.last()) {
        return Err(Refusal::Beyond);
    }
    let mut at: usize = 0;
    for (i, &r) in numbers.iter().enumerate() {
        let k = builder::build(&mut steps[at..], parts, r);
        at += k;
        ends[i] = at;
    }
    Ok(at)
}
