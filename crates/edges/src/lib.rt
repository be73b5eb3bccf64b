// What the calls for C answer (include/edges.h; `edges_c` exports them): each returns 0 or the documents' refusal number, `edges_pack_numbers` in a
// result word with an index beside it, and changes nothing on a refusal.
#![tactic(auto)]

ghost use Rattle.edges.specs.Seen.{Tells};
ghost use Rattle.edges.specs.Meets.{EdgesCountMeets, EdgesWidthMeets, EdgesNumberMeets, EdgesBuildMeets, EdgesDipMeets, EdgesEarlierMeets, EdgesPackWriteMeets, EdgesPackEdgeMeets, EdgesPackRepeatMeets, EdgesPackNumbersMeets};

use job::Refusal;
use pack::Fault;
use questions::Which;

// What C has of an answer: 0 and the value behind the pointer, or the refusal number and nothing written.
fn tell<T: Copy>(answer: Result<T, Refusal>, place: &mut T) -> u8
    ensures { Tells answer place.old result place.new }
{
    match answer {
        Ok(value) => {
            *place = value;
            0
        }
        Err(refusal) => u8::from(refusal),
    }
}

// How many edges the block's job has, behind `count`.
pub fn edges_count(block: &[u8], count: &mut u64) -> u8
    ensures { EdgesCountMeets block.now count.old result count.new }
{
    let answer = calls::count(block);
    tell(answer, count)
}

// The least number of bits that holds every number below the count, behind `width`.
pub fn edges_width(block: &[u8], width: &mut u8) -> u8
    ensures { EdgesWidthMeets block.now width.old result width.new }
{
    let answer = calls::width(block);
    tell(answer, width)
}

// How many edges of the job stand before this one, behind `number`.
pub fn edges_number(block: &[u8], edge: &[u8], number: &mut u64) -> u8
    ensures { EdgesNumberMeets block.now edge.now number.old result number.new }
{
    let answer = calls::number(block, edge);
    tell(answer, number)
}

// The edge of a number at the front of `out`, and its length behind `len`.
pub fn edges_build(block: &[u8], number: u64, out: &mut [u8], len: &mut usize) -> u8
    ensures { EdgesBuildMeets block.now number out.old len.old result out.new len.new }
{
    let answer = calls::build(block, number, out);
    tell(answer, len)
}

// Whether the edge dips behind `dips`, and where behind `place`, which is left as it was if it doesn't.
// kept: places one by one behind pointers, here and below: the C interface.
pub fn edges_dip(block: &[u8], edge: &[u8], dips: &mut u8, place: &mut usize) -> u8
    ensures { EdgesDipMeets block.now edge.now dips.old place.old result dips.new place.new }
{
    match questions::dip(block, edge) {
        Ok(Some(i)) => {
            *dips = 1;
            *place = i;
            0
        }
        Ok(None) => {
            *dips = 0;
            0
        }
        Err(refusal) => u8::from(refusal),
    }
}

// Whether the second of two edges is the earlier one, behind `second`.
pub fn edges_earlier(block: &[u8], a: &[u8], b: &[u8], second: &mut u8) -> u8
    ensures { EdgesEarlierMeets block.now a.now b.now second.old result second.new }
{
    match questions::compare(block, a, b) {
        Ok(Which::First) => {
            *second = 0;
            0
        }
        Ok(Which::Second) => {
            *second = 1;
            0
        }
        Err(unordered) => u8::from(unordered),
    }
}

// The pack of the edges of these numbers at the front of `out`, and its length behind `len`.
pub fn edges_pack_write(block: &[u8], numbers: &[u64], out: &mut [u8], len: &mut usize) -> u8
    ensures { EdgesPackWriteMeets block.now numbers.now out.old len.old result out.new len.new }
{
    let written = packing::write(block, numbers, out);
    tell(written, len)
}

// Where edge i of a pack begins and ends, behind `start` and `end`.
pub fn edges_pack_edge(pack: &[u8], i: usize, start: &mut usize, end: &mut usize) -> u8
    ensures { EdgesPackEdgeMeets pack.now i start.old end.old result start.new end.new }
{
    match pack::part(pack, i) {
        Ok((s, e)) => {
            *start = s;
            *end = e;
            0
        }
        Err(unparted) => u8::from(unparted),
    }
}

// Whether an edge of a pack equals an earlier one behind `found`, and the two behind `later` and `earlier`, which are left as they were if
// there is none.
pub fn edges_pack_repeat(pack: &[u8], found: &mut u8, later: &mut usize, earlier: &mut usize) -> u8
    ensures { EdgesPackRepeatMeets pack.now found.old later.old earlier.old result found.new later.new earlier.new }
{
    match pack::repeat(pack) {
        Ok(Some((i, j))) => {
            *found = 1;
            *later = i;
            *earlier = j;
            0
        }
        Ok(None) => {
            *found = 0;
            0
        }
        Err(refusal) => u8::from(refusal),
    }
}

// The number of every edge of a pack at the front of `numbers`, and how many behind `count`. Returns 0 or a result word: the refusal number,
// and from bit 16 on the index of the edge that isn't valid.
pub fn edges_pack_numbers(pack: &[u8], numbers: &mut [u64], count: &mut usize) -> u32
    ensures { EdgesPackNumbersMeets pack.now numbers.old count.old result numbers.new count.new }
{
    match pack::number_all(pack, numbers) {
        Ok(n) => {
            *count = n;
            0
        }
        Err(Fault::NotEdge(i)) => 5 + 65536 * i as u32,
        Err(Fault::Refused(refusal)) => u32::from(u8::from(refusal)),
    }
}
