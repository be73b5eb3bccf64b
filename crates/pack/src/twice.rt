// The first repeat in a pack whose layout is kept.
ghost use Rattle.std.specs.Prelude.{◌≡◌, ◌<◌};
ghost use Rattle.rules.specs.Packs.{count_in, edge_in, same_bytes};
ghost use Rattle.rules.specs.Questions.{twice_in};
ghost use Rattle.pack.specs.Layout.{edges_in};
ghost use Rattle.pack.specs.Replies.{paired};

use super::layout::LaidPack;

// "the first edge that equals an earlier one, with the earliest it equals, or none". The outer loop is over the later edge: of A B B A the
// answer is (2,1), not (3,0).
pub(crate) fn first_repeat(pack: &LaidPack<'_>) -> Option<(usize, usize)>
    ensures { result ≡ paired (twice_in (edges_in pack.now.bytes.now)) }
{
    let mut found = None;
    'search: for later in 0..pack.edge_count() {
        for earlier in 0..later {
            if are_equal(pack, later, earlier) {
                found = Some((later, earlier));
                break 'search;
            }
        }
    }
    found
}

// Whether edges i and j are the same bytes.
fn are_equal(pack: &LaidPack<'_>, i: usize, j: usize) -> bool
    requires first { i < count_in pack.now.bytes.now }
    requires second { j < count_in pack.now.bytes.now }
    ensures { result ≡ same_bytes (edge_in pack.now.bytes.now i) (edge_in pack.now.bytes.now j) }
{
    pack.edge_at(i) == pack.edge_at(j)
}
