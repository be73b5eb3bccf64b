// Packs.
// kept: two as in pack_examples: a library for them would have three times their lines, in contracts, relations and what settles them.

// Motzkin's edges DDD and DEN to (3,3).
pub(crate) fn motzkin() -> [u8; 38] {
    [
        b'E', b'D', b'G', b'1', 5, 3, 3, 0, 0, 0, 0, 0, 0, 0, 0, 0, 0, 0, 0, 0, 0, 0, 0, 0, 2, 0,
        32, 0, 35, 0, 38, 0, b'D', b'D', b'D', b'D', b'E', b'N',
    ]
}

// Two empty edges of North-East to (0,0): the three offsets are equal.
pub(crate) fn empty_edges() -> [u8; 32] {
    [
        b'E', b'D', b'G', b'1', 1, 0, 0, 0, 0, 0, 0, 0, 0, 0, 0, 0, 0, 0, 0, 0, 0, 0, 0, 0, 2, 0,
        32, 0, 32, 0, 32, 0,
    ]
}

// A pack without edges, of a job of families 1 to 5 to (n,n).
pub(crate) fn bare(family: u8, n: u8) -> [u8; 28] {
    [
        b'E', b'D', b'G', b'1', family, n, n, 0, 0, 0, 0, 0, 0, 0, 0, 0, 0, 0, 0, 0, 0, 0, 0, 0, 0,
        0, 28, 0,
    ]
}
