// The layout of a pack (document 01, "Edge pack"): its mark, its edge count, its offsets and its edges.
ghost use Rattle.std.specs.Prelude.{◌≡◌, true, false, MatchResult, ◌+◌, ◌*◌, ◌≤◌, ◌<◌, length, take};
ghost use Rattle.rules.specs.Packs.{count_in, shortest, block_in, edge_in, laid, mark, offset, rises, same_bytes, word};
ghost use Rattle.pack.specs.Layout.{EndsOf, Offset};

use super::Pack;
use job::Refusal;

// "Little-endian": the number of the two bytes at k.
fn word_at(bytes: &[u8], k: usize) -> usize
    requires { k + 2 ≤ length bytes.now }
    ensures { (result ≡ word bytes.now k) × (result < 65536) }
{
    usize::from(u16::from_le_bytes([bytes[k], bytes[k + 1]]))
}

fn offset_at(bytes: &[u8], i: usize) -> usize
    requires { Offset bytes.now i }
    ensures { result ≡ offset bytes.now i }
{
    word_at(bytes, Pack::OFFSETS + 2 * i)
}

// "The first four bytes are `EDG1`".
fn is_marked(bytes: &[u8]) -> bool
    requires { 4 ≤ length bytes.now }
    ensures { result ≡ same_bytes (take 4 bytes.now) mark }
{
    bytes.starts_with(&Pack::MARK)
}

// "offsets never fall": the first c + 1 offsets.
fn is_rising(bytes: &[u8], c: usize) -> bool
    requires { Offset bytes.now c }
    ensures { result ≡ rises bytes.now c }
{
    (0..c).all(|i| offset_at(bytes, i) <= offset_at(bytes, i + 1))
}

// That the c + 1 offsets fit is tested before any is read.
fn is_laid(pack: &[u8]) -> bool
    ensures { result ≡ laid pack.now }
{
    if pack.len() < Pack::SHORTEST {
        return false;
    }
    if Pack::LONGEST < pack.len() {
        return false;
    }
    if !is_marked(pack) {
        return false;
    }
    let c = word_at(pack, Pack::COUNT);
    if Pack::MOST < c {
        return false;
    }
    let first = Pack::SHORTEST + 2 * c;
    if pack.len() < first {
        return false;
    }
    if offset_at(pack, 0) != first {
        return false;
    }
    if !is_rising(pack, c) {
        return false;
    }
    offset_at(pack, c) == pack.len()
}

// A pack whose layout is kept.
#[derive(Clone, Copy)]
pub(crate) struct LaidPack<'a> {
    bytes: &'a [u8],
    ghost laid: { laid bytes.now ≡ true },
}

impl<'a> LaidPack<'a> {
    // "8 Pack: length, mark, c or offsets break the layout".
    pub(crate) fn of(bytes: &'a [u8]) -> Result<LaidPack<'a>, Refusal>
        ensures { MatchResult result (λ pack. pack.bytes.now ≡ bytes.now) (λ r. (r ≡ Refusal.BadPack) × (laid bytes.now ≡ false)) }
    {
        if is_laid(bytes) {
            Ok(LaidPack { bytes })
        } else {
            Err(Refusal::BadPack)
        }
    }

    pub(crate) fn bytes(&self) -> &'a [u8]
        ensures { result.now ≡ self.now.bytes.now }
    {
        self.bytes
    }

    // The job block.
    pub(crate) fn block(&self) -> &'a [u8]
        ensures { result.now ≡ block_in self.now.bytes.now }
    {
        &self.bytes[Pack::BLOCK..Pack::COUNT]
    }

    // The edge count c.
    pub(crate) fn edge_count(&self) -> usize
        ensures { (result ≡ count_in self.now.bytes.now) × (result ≤ 200) }
    {
        word_at(self.bytes, Pack::COUNT)
    }

    pub(crate) fn offset_at(&self, i: usize) -> usize
        requires { i ≤ count_in self.now.bytes.now }
        ensures { result ≡ offset self.now.bytes.now i }
    {
        offset_at(self.bytes, i)
    }

    // Edge i, as part of the pack.
    pub(crate) fn edge_at(&self, i: usize) -> &'a [u8]
        requires { i < count_in self.now.bytes.now }
        ensures { result.now ≡ edge_in self.now.bytes.now i }
    {
        &self.bytes[self.offset_at(i)..self.offset_at(i + 1)]
    }

    // Where each edge ends, for as many as there are: the offsets after the first.
    pub(crate) fn ends(&self) -> [usize; Pack::MOST]
        ensures { EndsOf self.now.bytes.now result }
    {
        let c = self.edge_count();
        let mut ends = [0usize; Pack::MOST];
        for i in 0..c {
            ends[i] = self.offset_at(i + 1);
        }
        ends
    }
}
