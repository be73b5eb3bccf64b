// A whole pack numbered (document 02, L1): each edge is read once, the counts are worked out once, and no entry is written before all
// numbers are known.
ghost use Rattle.pack.specs.Whole.{KeptAs, NumberedAs, told_of};
ghost use Rattle.pack.specs.Replies.{numbers_says};
ghost use Rattle.std.specs.Prelude.{◌≡◌};

use super::layout::LaidPack;
use super::{Fault, Pack};
use job::Refusal;

// What is told where the first n of c edges have got their numbers: "the first such index", "then 7 for a short list".
fn told(n: usize, c: usize, room: usize) -> Result<usize, Fault>
    ensures { numbers_says result ≡ told_of n c room }
{
    if n < c {
        return Err(Fault::NotEdge(n));
    }
    if room < c {
        return Err(Fault::Refused(Refusal::Room));
    }
    Ok(c)
}

// All numbers are written, or none.
fn keep(n: usize, kept: &[u64], list: &mut [u64]) -> Result<usize, Fault>
    ensures { KeptAs n kept.now list.old result list.new }
{
    let c = told(n, kept.len(), list.len())?;
    list[..c].copy_from_slice(kept);
    Ok(c)
}

// The numbers of a pack whose layout is kept.
pub(crate) fn number_edges(pack: &LaidPack<'_>, list: &mut [u64]) -> Result<usize, Fault>
    ensures { NumberedAs pack.now.bytes.now list.old result list.new }
{
    let c = pack.edge_count();
    let ends = pack.ends();
    let mut kept = [0u64; Pack::MOST];
    let n = calls::number_all(
        pack.block(),
        pack.bytes(),
        pack.offset_at(0),
        &ends[..c],
        &mut kept,
    )?;
    keep(n, &kept[..c], list)
}
