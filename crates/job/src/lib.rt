// Jobs made from their block of 20 bytes (document 01, "Job block"), and the answers that every call gives.
#![tactic(auto)]

ghost use Rattle.std.specs.Prelude.{◌≡◌, ◌==◌, Some};
ghost use Rattle.std.specs.List.{list_all};
ghost use Rattle.rules.specs.Blocks.{formed, sized, sized_lettered, sized_directed, small, pairs_in, is_in, twins};
ghost use Rattle.job.specs.Made.{raised, pair_by, in_range, Whole, held_by};
ghost use Rattle.job.specs.Replies.{shown};
ghost use Rattle.job.specs.Meets.{PutMeets, WideMeets, FamilyOfMeets, IsPlainMeets, IsSquareMeets, IsFencedMeets, IsPairedMeets, JobOfMeets, FamilyTryFromU8Meets, U8FromFamilyMeets, U8FromRefusalMeets};

use std::fmt;

// A step's letter: `N`, `E` and `D` of families 1 to 5, and the digits `1` to `8` of families 6 and 7.
#[derive(Drop)]
pub struct Step {}

impl Step {
    pub const NORTH: u8 = b'N';

    pub const EAST: u8 = b'E';

    pub const DIAGONAL: u8 = b'D';

    pub const FIRST: u8 = b'1';

    pub const LAST: u8 = b'8';
}

// The families of document 01, in the order of their numbers.
#[derive(Clone, Copy, Debug, PartialEq, Eq)]
pub enum Family {
    NorthEast,
    Dyck,
    Delannoy,
    Schroder,
    Motzkin,
    Open,
    Fenced,
}

// A block's first byte; "1 Form: .. family not 1 to 7".
impl TryFrom<u8> for Family {
    type Error = Refusal;

    ghost try_from_gives = { λ number r. FamilyTryFromU8Meets number r };

    fn try_from(number: u8) -> Result<Family, Refusal> {
        match number {
            1 => Ok(Family::NorthEast),
            2 => Ok(Family::Dyck),
            3 => Ok(Family::Delannoy),
            4 => Ok(Family::Schroder),
            5 => Ok(Family::Motzkin),
            6 => Ok(Family::Open),
            7 => Ok(Family::Fenced),
            _ => Err(Refusal::Form),
        }
    }
}

// The first byte of a family's blocks.
impl From<Family> for u8 {
    ghost from_gives = { λ family number. U8FromFamilyMeets family number };

    fn from(family: Family) -> u8 {
        match family {
            Family::NorthEast => 1,
            Family::Dyck => 2,
            Family::Delannoy => 3,
            Family::Schroder => 4,
            Family::Motzkin => 5,
            Family::Open => 6,
            Family::Fenced => 7,
        }
    }
}

// A job: the bytes of its block, with m and each b raised by 128, so that no number is below 0.
#[derive(Clone, Copy, Debug)]
pub struct Job {
    pub family: Family,
    pub n: u8,
    pub m: u8,
    pub k: u8,
    pub a: [u8; Job::STEPS],
    pub b: [u8; Job::STEPS],
}

// Why a call refuses: the rows of document 01's table "Refusal numbers", in its order.
#[derive(Clone, Copy, Debug, PartialEq, Eq)]
pub enum Refusal {
    Form,
    Size,
    Twin,
    Over,
    NotEdge,
    Beyond,
    Room,
    BadPack,
    NoSuchEdge,
    Many,
    Kind,
}

// A refusal's number is all that C and the listing are told of it.
impl From<Refusal> for u8 {
    ghost from_gives = { λ refusal number. U8FromRefusalMeets refusal number };

    fn from(refusal: Refusal) -> u8 {
        match refusal {
            Refusal::Form => 1,
            Refusal::Size => 2,
            Refusal::Twin => 3,
            Refusal::Over => 4,
            Refusal::NotEdge => 5,
            Refusal::Beyond => 6,
            Refusal::Room => 7,
            Refusal::BadPack => 8,
            Refusal::NoSuchEdge => 9,
            Refusal::Many => 10,
            Refusal::Kind => 11,
        }
    }
}

// A program prints a refusal's number.
impl fmt::Display for Refusal {
    ghost output = { λ refusal. Some (shown refusal) };

    fn fmt<W: fmt::Write>(&self, f: &mut fmt::Formatter<W>) -> fmt::Result {
        write!(f, "{}", u8::from(*self))
    }
}

// "7 Room": an edge written to the front of the output, if it fits; nothing behind it is touched.
pub fn put(edge: &[u8], out: &mut [u8]) -> Result<usize, Refusal>
    ensures { PutMeets edge.now out.old result out.new }
{
    let room = edge.len();
    if out.len() < room {
        return Err(Refusal::Room);
    }
    let n = edge.len();
    out[..n].copy_from_slice(edge);
    Ok(n)
}

// A byte raised by 128: what is signed there is unsigned here.
fn raise(x: u8) -> u8
    ensures { result ≡ raised x }
{
    x.wrapping_add(Job::LEVEL)
}

// A byte as a size.
pub fn wide(x: u8) -> usize
    ensures { WideMeets x result }
{
    x as usize
}

// The family that a block says it is of: its first byte, 0 where there is none, which is no family's number.
pub fn family_of(block: &[u8]) -> u8
    ensures { FamilyOfMeets block.now result }
{
    if block.len() < 1 {
        return 0;
    }
    block[0]
}

// Whether the family is 1 or 3.
// kept: a byte, here and in the three behind, and no `Family`: it is asked of a block's first byte, whatever that is (`IsPlainMeets`).
pub fn is_plain(family: u8) -> bool
    ensures { IsPlainMeets family result }
{
    if family == 1 {
        return true;
    }
    family == 3
}

// Whether the family is 2, 4 or 5: its end is (n,n), and it stays at y ≤ x.
pub fn is_square(family: u8) -> bool
    ensures { IsSquareMeets family result }
{
    if family == 2 {
        return true;
    }
    if family == 4 {
        return true;
    }
    family == 5
}

// Whether the family is 7: it stays at y ≥ 0.
pub fn is_fenced(family: u8) -> bool
    ensures { IsFencedMeets family result }
{
    family == 7
}

// Whether the family is 6 or 7: its steps are pairs, written as digits.
pub fn is_paired(family: u8) -> bool
    ensures { IsPairedMeets family result }
{
    if family == 6 {
        return true;
    }
    is_fenced(family)
}

// Whether every byte is zero.
fn all_zero(s: &[u8]) -> bool
    ensures { result ≡ list_all (λ b. b == 0) s.now }
{
    s.iter().all(|&b| b == 0)
}

// Refusal 1 isn't given: 20 bytes, family 1 to 7, unused bytes zero.
fn is_formed(block: &[u8]) -> bool
    ensures { result ≡ formed block.now }
{
    if block.len() != Job::BLOCK {
        return false;
    }
    let family = block[0];
    if family < 1 {
        return false;
    }
    if Job::FAMILIES < family {
        return false;
    }
    if !is_paired(family) {
        return all_zero(&block[3..]);
    }
    let k = wide(block[3]);
    if Job::STEPS <= k {
        return true; // no pair is unused
    }
    let from = 4 + 2 * k;
    all_zero(&block[from..])
}

// Each pair's a is 1 to 3, its b -3 to 3.
fn is_small(pairs: &[u8]) -> bool
    ensures { result ≡ small (pairs_in pairs.now) }
{
    match pairs {
        [a, b, rest @ ..] => in_range(*a, raise(*b)) && is_small(rest),
        _ => true,
    }
}

// a is 1 to 3, and b, raised, is -3 to 3.
fn in_range(a: u8, b: u8) -> bool
    ensures { result ≡ in_range a b }
{
    if a < 1 {
        return false;
    }
    if Job::LONGEST < a {
        return false;
    }
    if b < Job::FALLS {
        return false;
    }
    b <= Job::RISES
}

// Families 1 to 5: n and m are 0 to 64, and m = n in 2, 4 and 5.
// kept: `Whole` here and in three more contracts: a struct would have this one fact, and each byte be read through it.
fn is_sized_lettered(block: &[u8]) -> bool
    requires { Whole block.now }
    ensures { result ≡ sized_lettered block.now }
{
    let n = block[1];
    let m = raise(block[2]);
    if Job::FARTHEST < n {
        return false;
    }
    if m < Job::LEVEL {
        return false;
    }
    if Job::LEVEL + Job::FARTHEST < m {
        return false;
    }
    if is_square(block[0]) {
        return m == Job::LEVEL + n;
    }
    true
}

// Families 6 and 7: n 0 to 32, m -96 to 96, k 1 to 8, the used pairs small.
fn is_sized_directed(block: &[u8]) -> bool
    requires { Whole block.now }
    ensures { result ≡ sized_directed block.now }
{
    if Job::COLUMNS < block[1] {
        return false;
    }
    let m = raise(block[2]);
    if m < Job::LOWEST {
        return false;
    }
    if Job::HIGHEST < m {
        return false;
    }
    let k = wide(block[3]);
    if k < 1 {
        return false;
    }
    if Job::STEPS < k {
        return false;
    }
    is_small(&block[4..4 + 2 * k])
}

// Refusal 2 isn't given: every value in its family's range, and m = n where that is asked.
fn is_sized(block: &[u8]) -> bool
    requires { Whole block.now }
    ensures { result ≡ sized block.now }
{
    if is_paired(block[0]) {
        return is_sized_directed(block);
    }
    is_sized_lettered(block)
}

// Whether one of the pairs is (a,b).
fn is_in(a: u8, b: u8, pairs: &[u8]) -> bool
    ensures { result ≡ is_in (pair_by a b) (pairs_in pairs.now) }
{
    match pairs {
        [c, d, rest @ ..] => (a == *c && b == *d) || is_in(a, b, rest),
        _ => false,
    }
}

// Refusal 3: two of the pairs are equal.
fn has_twins(pairs: &[u8]) -> bool
    ensures { result ≡ twins (pairs_in pairs.now) }
{
    match pairs {
        [a, b, rest @ ..] => is_in(*a, *b, rest) || has_twins(rest),
        _ => false,
    }
}

impl Job {
    // The bytes of a block, and the last family.
    pub const BLOCK: usize = 20;

    pub const FAMILIES: u8 = 7;
    // Ranges of families 1 to 5.
    pub const FARTHEST: u8 = 64;
    // Ranges of families 6 and 7; m and b are raised by 128.
    pub const COLUMNS: u8 = 32;

    pub const LOWEST: u8 = 32;

    pub const HIGHEST: u8 = 224;

    pub const STEPS: usize = 8;

    pub const LONGEST: u8 = 3;

    pub const FALLS: u8 = 125;

    pub const RISES: u8 = 131;
    // 0, raised; as a byte, and as a size.
    pub const LEVEL: u8 = 128;

    pub const GROUND: usize = Job::LEVEL as usize;

    // "Every job is made from its block of 20 bytes": the job, or refusal 1, 2 or 3.
    pub fn of(block: &[u8]) -> Result<Job, Refusal>
        ensures { JobOfMeets block.now result }
    {
        if !is_formed(block) {
            return Err(Refusal::Form);
        }
        if !is_sized(block) {
            return Err(Refusal::Size);
        }
        let family = Family::try_from(block[0])?;
        if is_paired(block[0]) && has_twins(&block[4..4 + 2 * wide(block[3])]) {
            return Err(Refusal::Twin);
        }
        let job = Job::held(family, block);
        Ok(job)
    }

    fn held(family: Family, block: &[u8]) -> Job
        requires { Whole block.now }
        ensures { result ≡ held_by family block.now }
    {
        let a = [
            block[4], block[6], block[8], block[10], block[12], block[14], block[16], block[18],
        ];
        let b = [
            raise(block[5]),
            raise(block[7]),
            raise(block[9]),
            raise(block[11]),
            raise(block[13]),
            raise(block[15]),
            raise(block[17]),
            raise(block[19]),
        ];
        Job {
            family,
            n: block[1],
            m: raise(block[2]),
            k: block[3],
            a,
            b,
        }
    }
}
