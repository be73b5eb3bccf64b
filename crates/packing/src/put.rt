// The parts of a pack, put to a lent output that has room for them.
ghost use Rattle.std.specs.Prelude.{◌≡◌, ℕ, ◌+◌, ◌≤◌, ◌<◌, length, slice_index};
ghost use Rattle.rules.specs.Blocks.{block_length};
ghost use Rattle.rules.specs.Refusals.Answer.{accepted};
ghost use Rattle.rules.specs.Answers.{written};
ghost use Rattle.rules.specs.Packs.{shortest, two};
ghost use Rattle.job.specs.Replies.{BuiltAs};
ghost use Rattle.packing.specs.Packing.{pasted, first_of, front_of, offsets_of, pack_from};

use job::Refusal;
use pack::Pack;

// The bytes s, from place `at` on.
fn put_bytes(out: &mut [u8], at: usize, s: &[u8])
    requires { at + length s.now ≤ length out.old }
    ensures { out.new ≡ pasted out.old at s.now }
{
    out[at..at + s.len()].copy_from_slice(s);
}

// "Little-endian": v as two bytes, from place `at` on.
fn put_two(out: &mut [u8], at: usize, v: usize)
    requires { (at + 2 ≤ length out.old) × (v < 65536) }
    ensures { out.new ≡ pasted out.old at (two v) }
{
    let two = (v as u16).to_le_bytes();
    put_bytes(out, at, &two);
}

// The parts of a pack of edges that are lined up: the job block, where each edge ends, and the steps of all.
#[derive(Clone, Copy)]
pub(crate) struct Parts<'a> {
    pub(crate) block: &'a [u8],
    pub(crate) ends: &'a [usize],
    pub(crate) steps: &'a [u8],
    ghost whole: { length block.now ≡ block_length },
    ghost few: { length ends.now ≤ 200 },
    ghost short: { length steps.now ≤ 25600 },
    ghost within: { (i : ℕ) → i < length ends.now → slice_index ends.now i ≤ 25600 },
}

impl<'a> Parts<'a> {
    // "The first offset is 28+2c".
    fn first(&self) -> usize
        ensures { result ≡ first_of self.now.ends.now }
    {
        Pack::SHORTEST + 2 * self.ends.len()
    }

    // The mark, the block, the edge count, and the first offset.
    fn put_front(&self, out: &mut [u8])
        requires { shortest ≤ length out.old }
        ensures { out.new ≡ pasted out.old 0 (front_of self.now.block.now (length self.now.ends.now)) }
    {
        put_bytes(out, 0, &Pack::MARK);
        put_bytes(out, Pack::BLOCK, self.block);
        put_two(out, Pack::COUNT, self.ends.len());
        put_two(out, Pack::OFFSETS, self.first());
    }

    // The other offsets: where each edge ends.
    fn put_offsets(&self, out: &mut [u8])
        requires { first_of self.now.ends.now ≤ length out.old }
        ensures { out.new ≡ pasted out.old shortest (offsets_of (first_of self.now.ends.now) self.now.ends.now) }
    {
        let first = self.first();
        for (i, end) in self.ends.iter().enumerate() {
            put_two(out, Pack::SHORTEST + 2 * i, first + *end);
        }
    }

    // "7 Room", or the whole pack.
    pub(crate) fn put(&self, out: &mut [u8]) -> Result<usize, Refusal>
        ensures { BuiltAs (written (accepted (pack_from self.now.block.now self.now.ends.now self.now.steps.now)) out.old) result out.new }
    {
        let first = self.first();
        let len = first + self.steps.len();
        if out.len() < len {
            return Err(Refusal::Room);
        }
        self.put_front(out);
        self.put_offsets(out);
        put_bytes(out, first, self.steps);
        Ok(len)
    }
}
