// The exports of libedges.a (include/edges.h): each is the function of `edges` of its name, with the same contract. C lends a slice as a pointer and
// a length.
#![tactic(auto)]

ghost use Rattle.edges.specs.Meets.{EdgesCountMeets, EdgesWidthMeets, EdgesNumberMeets, EdgesBuildMeets, EdgesDipMeets, EdgesEarlierMeets, EdgesPackWriteMeets, EdgesPackEdgeMeets, EdgesPackRepeatMeets, EdgesPackNumbersMeets};

// How many edges the block's job has, behind `count`.
#[unsafe(no_mangle)]
pub extern "C" fn edges_count(block: &[u8], count: &mut u64) -> u8
    ensures { EdgesCountMeets block.now count.old result count.new }
{
    edges::edges_count(block, count)
}

// The least number of bits that holds every number below the count, behind `width`.
#[unsafe(no_mangle)]
pub extern "C" fn edges_width(block: &[u8], width: &mut u8) -> u8
    ensures { EdgesWidthMeets block.now width.old result width.new }
{
    edges::edges_width(block, width)
}

// How many edges of the job stand before this one, behind `number`.
#[unsafe(no_mangle)]
pub extern "C" fn edges_number(block: &[u8], edge: &[u8], number: &mut u64) -> u8
    ensures { EdgesNumberMeets block.now edge.now number.old result number.new }
{
    edges::edges_number(block, edge, number)
}

// The edge of a number at the front of `out`, and its length behind `len`.
#[unsafe(no_mangle)]
pub extern "C" fn edges_build(block: &[u8], number: u64, out: &mut [u8], len: &mut usize) -> u8
    ensures { EdgesBuildMeets block.now number out.old len.old result out.new len.new }
{
    edges::edges_build(block, number, out, len)
}

// Whether the edge dips behind `dips`, and where behind `place`, which is left as it was if it doesn't.
#[unsafe(no_mangle)]
pub extern "C" fn edges_dip(block: &[u8], edge: &[u8], dips: &mut u8, place: &mut usize) -> u8
    ensures { EdgesDipMeets block.now edge.now dips.old place.old result dips.new place.new }
{
    edges::edges_dip(block, edge, dips, place)
}

// Whether the second of two edges is the earlier one, behind `second`.
#[unsafe(no_mangle)]
pub extern "C" fn edges_earlier(block: &[u8], a: &[u8], b: &[u8], second: &mut u8) -> u8
    ensures { EdgesEarlierMeets block.now a.now b.now second.old result second.new }
{
    edges::edges_earlier(block, a, b, second)
}

// The pack of the edges of these numbers at the front of `out`, and its length behind `len`.
#[unsafe(no_mangle)]
pub extern "C" fn edges_pack_write(
    block: &[u8],
    numbers: &[u64],
    out: &mut [u8],
    len: &mut usize,
) -> u8
    ensures { EdgesPackWriteMeets block.now numbers.now out.old len.old result out.new len.new }
{
    edges::edges_pack_write(block, numbers, out, len)
}

// Where edge i of a pack begins and ends, behind `start` and `end`.
#[unsafe(no_mangle)]
pub extern "C" fn edges_pack_edge(pack: &[u8], i: usize, start: &mut usize, end: &mut usize) -> u8
    ensures { EdgesPackEdgeMeets pack.now i start.old end.old result start.new end.new }
{
    edges::edges_pack_edge(pack, i, start, end)
}

// Whether an edge of a pack equals an earlier one behind `found`, and the two behind `later` and `earlier`, which are left as they were if
// there is none.
#[unsafe(no_mangle)]
pub extern "C" fn edges_pack_repeat(
    pack: &[u8],
    found: &mut u8,
    later: &mut usize,
    earlier: &mut usize,
) -> u8
    ensures { EdgesPackRepeatMeets pack.now found.old later.old earlier.old result found.new later.new earlier.new }
{
    edges::edges_pack_repeat(pack, found, later, earlier)
}

// The number of every edge of a pack at the front of `numbers`, and how many behind `count`. Returns 0 or a result word: the refusal number,
// and from bit 16 on the index of the edge that isn't valid.
#[unsafe(no_mangle)]
pub extern "C" fn edges_pack_numbers(pack: &[u8], numbers: &mut [u64], count: &mut usize) -> u32
    ensures { EdgesPackNumbersMeets pack.now numbers.old count.old result numbers.new count.new }
{
    edges::edges_pack_numbers(pack, numbers, count)
}
