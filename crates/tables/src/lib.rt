// The one table of families 1, 3, 6 and 7: the types that its definitions and laws speak of. The crates that fill it have the functions.
#![tactic(auto)]

use job::Job;

// A line that no walk crosses: a roof y ≤ slope · x + start, or else a fence slope · x ≤ y + start. The fence of slope 0 is no wall.
#[derive(Clone, Copy)]
pub struct Wall {
    pub roof: bool,
    pub slope: usize,
    pub start: usize,
}

// What the table is filled for: steps, a wall and an end.
#[derive(Clone, Copy)]
pub struct Shape {
    pub k: usize,
    pub wall: Wall,
    pub top: usize,
    pub ex: usize,
    pub ey: usize,
    pub sa: [usize; Job::STEPS],
    pub sc: [usize; Job::STEPS],
}

// The numbers of a shape, six times its steepest step (hi), its deepest (deep), and whether it has only the first four (few).
#[derive(Clone, Copy)]
pub struct Plan {
    pub few: bool,
    pub k: usize,
    pub wall: Wall,
    pub top: usize,
    pub hi: usize,
    pub deep: usize,
    pub ex: usize,
    pub ey: usize,
}
