// Job blocks of 20 bytes; m and b are handed over as the bytes that stand for them.
pub(crate) const NONE: [u8; 16] = [0; 16];

// The steps (1,-1), (1,0), (1,1).
pub(crate) const T: [u8; 16] = [1, 255, 1, 0, 1, 1, 0, 0, 0, 0, 0, 0, 0, 0, 0, 0];

// The steps (1,-3), (1,-1), (1,1), (1,3), (2,-2), (2,0), (2,2): no edge to a height and a column of which one is odd and one isn't.
pub(crate) const EVEN: [u8; 16] = [1, 253, 1, 255, 1, 1, 1, 3, 2, 254, 2, 0, 2, 2, 0, 0];

// The steps (1,-2) to (1,2).
pub(crate) const FIVE: [u8; 16] = [1, 254, 1, 255, 1, 0, 1, 1, 1, 2, 0, 0, 0, 0, 0, 0];

// The step (1,0), and the step (1,-3).
pub(crate) const LEVEL: [u8; 16] = [1, 0, 0, 0, 0, 0, 0, 0, 0, 0, 0, 0, 0, 0, 0, 0];

pub(crate) const DOWN: [u8; 16] = [1, 253, 0, 0, 0, 0, 0, 0, 0, 0, 0, 0, 0, 0, 0, 0];

// The step (1,1), twice.
pub(crate) const TWINS: [u8; 16] = [1, 1, 1, 1, 0, 0, 0, 0, 0, 0, 0, 0, 0, 0, 0, 0];

// The steps (1,-3) to (1,3).
pub(crate) const SEVEN: [u8; 16] = [1, 253, 1, 254, 1, 255, 1, 0, 1, 1, 1, 2, 1, 3, 0, 0];

pub(crate) fn block(family: u8, n: u8, m: u8, k: u8, p: [u8; 16]) -> [u8; 20] {
    let mut block = [0; 20];
    block[..4].copy_from_slice(&[family, n, m, k]);
    block[4..].copy_from_slice(&p);
    block
}

// A block of families 1 to 5.
// kept: as in pack_examples and edgelist_cases: a library for it would have three times its lines, in a contract, a relation and what settles it.
pub(crate) fn lettered(family: u8, n: u8, m: u8) -> [u8; 20] {
    block(family, n, m, 0, NONE)
}

// A block of families 6 and 7 with T.
pub(crate) fn with_t(family: u8, n: u8, m: u8) -> [u8; 20] {
    block(family, n, m, 3, T)
}
