// Blocks, and packs.
// kept: blocks as in examples, packs as in whole_examples: a library for them would have three times their lines, in contracts, relations and
// what settles them.
pub(crate) fn lettered(family: u8, n: u8, m: u8) -> [u8; 20] {
    [
        family, n, m, 0, 0, 0, 0, 0, 0, 0, 0, 0, 0, 0, 0, 0, 0, 0, 0, 0,
    ]
}

// The steps (1,-1), (1,0), (1,1).
pub(crate) fn with_t(family: u8, n: u8, m: u8) -> [u8; 20] {
    [
        family, n, m, 3, 1, 255, 1, 0, 1, 1, 0, 0, 0, 0, 0, 0, 0, 0, 0, 0,
    ]
}

// The pair (1,0) twice.
pub(crate) fn twins() -> [u8; 20] {
    [6, 3, 1, 2, 1, 0, 1, 0, 0, 0, 0, 0, 0, 0, 0, 0, 0, 0, 0, 0]
}

// Motzkin's edges DDD and DEN to (3,3).
pub(crate) fn motzkin() -> [u8; 38] {
    [
        b'E', b'D', b'G', b'1', 5, 3, 3, 0, 0, 0, 0, 0, 0, 0, 0, 0, 0, 0, 0, 0, 0, 0, 0, 0, 2, 0,
        32, 0, 35, 0, 38, 0, b'D', b'D', b'D', b'D', b'E', b'N',
    ]
}

// Two empty edges of North-East to (0,0): the three offsets are equal.
pub(crate) fn empty_edges() -> [u8; 32] {
    [
        b'E', b'D', b'G', b'1', 1, 0, 0, 0, 0, 0, 0, 0, 0, 0, 0, 0, 0, 0, 0, 0, 0, 0, 0, 0, 2, 0,
        32, 0, 32, 0, 32, 0,
    ]
}
