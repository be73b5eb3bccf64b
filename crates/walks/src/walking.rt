// The walk of one string, step by step on unsigned numbers: x, and the height h = y + 3x + 128, which no step lowers.
ghost use Rattle.lines.specs.Lines.{cut_from};
ghost use Rattle.walks.specs.Paces.{Paced, StopsAs, ChecksAs};

use crate::paces::Paces;
use job::Job;

// Where a string goes wrong, if it does: the first step that breaks a rule, or the length if it is only the end that isn't reached.
// The paces by value: behind a reference their rules are looked at anew at each step, and a step takes a quarter more instructions.
pub(crate) fn walk_one(p: Paces, edge: &[u8]) -> Option<usize>
    requires { Paced p }
    ensures { StopsAs p edge.now result }
{
    let mut x: usize = 0;
    let mut h = Job::GROUND;
    for (i, &byte) in edge.iter().enumerate() {
        let Some(l) = p.letter_of(byte) else {
            return Some(i);
        };
        let right = usize::from(p.a[l]);
        x += right;
        h += usize::from(p.b[l]) + 3 * right - Job::GROUND;
        if p.n < x {
            return Some(i);
        }
        if !p.is_within(x, h) {
            return Some(i);
        }
    }
    if x < p.n {
        return Some(edge.len());
    }
    if h != p.m + 3 * p.n {
        return Some(edge.len());
    }
    None
}

// The first of the strings that goes wrong, and where.
pub(crate) fn walk_each(
    p: Paces,
    bytes: &[u8],
    from: usize,
    ends: &[usize],
) -> Option<(usize, usize)>
    requires { Paced p }
    ensures { ChecksAs p (cut_from from ends.now bytes.now) result }
{
    let mut at = from;
    for (i, &end) in ends.iter().enumerate() {
        if let Some(place) = walk_one(p, lines::part(bytes, at, end)) {
            return Some((i, place));
        }
        at = end;
    }
    None
}
