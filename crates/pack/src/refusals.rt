// What every question on a pack refuses: the layout, the job, and an edge that isn't valid.
ghost use Rattle.std.specs.Prelude.{◌≡◌, MatchResult, Err};
ghost use Rattle.rules.specs.Packs.{block_in};
ghost use Rattle.rules.specs.Refusals.Answer.{accepted};
ghost use Rattle.rules.specs.Questions.{read_answer};
ghost use Rattle.job.specs.Replies.{reply};
ghost use Rattle.pack.specs.Layout.{edges_in, EdgesAs, pack_in};

use super::layout::LaidPack;
use job::Refusal;

// "8 first for packs; then 1, 2, 3, 4; .. then 5": a pack that no question refuses.
pub(crate) fn read(pack: &[u8]) -> Result<LaidPack<'_>, Refusal>
    ensures { let answer = read_answer pack.now in
        MatchResult result (λ laid. (laid.bytes.now ≡ pack.now) × (answer ≡ accepted (pack_in pack.now))) (λ r. Err r ≡ reply answer) }
{
    let laid = LaidPack::of(pack)?;
    calls::count(laid.block())?;
    check_edges(&laid)?;
    Ok(laid)
}

// "every question on a pack checks all its edges, from index 0".
fn check_edges(pack: &LaidPack<'_>) -> Result<(), Refusal>
    ensures { EdgesAs (block_in pack.now.bytes.now) (edges_in pack.now.bytes.now) result }
{
    let ends = pack.ends();
    match walks::walk_all(
        pack.block(),
        pack.bytes(),
        pack.offset_at(0),
        &ends[..pack.edge_count()],
    )? {
        None => Ok(()),
        Some(_) => Err(Refusal::NotEdge),
    }
}
