// Questions on packs (document 01, "Edge pack" and "Questions on edges"; document 02, L1): edge i of a pack, the first repeat, and the
// numbers of all edges.
#![tactic(auto)]

ghost use Rattle.pack.specs.Meets.{PartMeets, EdgeMeets, EdgeRefusalMeets, RepeatMeets, NumberAllMeets, FaultFromRefusalMeets, FaultFromUnansweredMeets};

mod layout;
mod refusals;
mod twice;
mod whole;

use job::Refusal;
use layout::LaidPack;
use lines::Unanswered;

// The constants of a pack.
#[derive(Drop)]
pub struct Pack {}

impl Pack {
    // The first four bytes of every pack.
    pub const MARK: [u8; 4] = *b"EDG1";
    // Where the job block stands, the edge count right behind it, and the offsets.
    pub const BLOCK: usize = 4;

    pub const COUNT: usize = Pack::BLOCK + job::Job::BLOCK;

    pub const OFFSETS: usize = Pack::COUNT + 2;
    // "Length 28 to 32,768."
    pub const SHORTEST: usize = Pack::OFFSETS + 2;

    pub const LONGEST: usize = 32768;
    // The most edges of a pack.
    pub const MOST: usize = 200;
}

// Why the edges of a pack have no numbers: the index of the first that isn't valid, which is refusal 5, or another refusal.
#[derive(Clone, Copy, Debug, PartialEq, Eq)]
pub enum Fault {
    NotEdge(usize),
    Refused(Refusal),
}

impl From<Refusal> for Fault {
    ghost from_gives = { λ why fault. FaultFromRefusalMeets why fault };

    fn from(why: Refusal) -> Fault {
        Fault::Refused(why)
    }
}

// Where there is no room for a number of each edge, that is refusal 7.
impl From<Unanswered> for Fault {
    ghost from_gives = { λ why fault. FaultFromUnansweredMeets why fault };

    fn from(why: Unanswered) -> Fault {
        Fault::Refused(Refusal::from(why))
    }
}

// Edge i of a pack (document 01, "Questions on edges"), by where it begins and ends.
pub fn part(pack: &[u8], i: usize) -> Result<(usize, usize), Refusal>
    ensures { PartMeets pack.now i result }
{
    let laid = refusals::read(pack)?;
    if laid.edge_count() <= i {
        return Err(Refusal::NoSuchEdge);
    }
    Ok((laid.offset_at(i), laid.offset_at(i + 1)))
}

// Edge i of a pack, "handed back as part of the pack"; on a refusal the empty part at its front.
pub fn edge(pack: &[u8], i: usize) -> &[u8]
    ensures { EdgeMeets pack.entry i result }
{
    match part(pack, i) {
        Ok((start, end)) => &pack[start..end],
        Err(_) => &pack[0..0],
    }
}

// The partner question of `edge`.
// kept: a number, 0 if none, is what "a partner question gives the refusal number, 0 if none" asks (`EdgeRefusalMeets`).
pub fn edge_refusal(pack: &[u8], i: usize) -> u8
    ensures { EdgeRefusalMeets pack.now i result }
{
    match part(pack, i) {
        Ok(_) => 0,
        Err(refusal) => u8::from(refusal),
    }
}

// "Repeat": the first edge that equals an earlier one, with the earliest it equals, or none.
pub fn repeat(pack: &[u8]) -> Result<Option<(usize, usize)>, Refusal>
    ensures { RepeatMeets pack.now result }
{
    Ok(twice::first_repeat(&refusals::read(pack)?))
}

// "One call from a pack to a lent list of 64-bit numbers" (document 02, L1): entry i is the number of edge i. "8 first for packs".
pub fn number_all(pack: &[u8], list: &mut [u64]) -> Result<usize, Fault>
    ensures { NumberAllMeets pack.now list.old result list.new }
{
    whole::number_edges(&LaidPack::of(pack)?, list)
}
