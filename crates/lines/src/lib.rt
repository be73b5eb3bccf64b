// Lists of edges and of numbers, as the crate of some families answers them with its counts worked out once: edges stand one after the other
// in one lent slice, and where each of them ends in another.
#![tactic(auto)]

ghost use Rattle.std.specs.Prelude.{◌≡◌, ltb};
ghost use Rattle.std.specs.List.{list_all};
ghost use Rattle.lines.specs.Meets.{HasRoomMeets, AllBelowMeets, PartMeets, UnansweredFromRefusalMeets, RefusalFromUnansweredMeets};

use job::Refusal;

// Why a list isn't answered: there isn't room for as many answers of any length, or a refusal.
#[derive(Clone, Copy, Debug, PartialEq, Eq)]
pub enum Unanswered {
    NoRoom,
    Refused(Refusal),
}

impl From<Refusal> for Unanswered {
    ghost from_gives = { λ refusal why. UnansweredFromRefusalMeets refusal why };

    fn from(why: Refusal) -> Unanswered {
        Unanswered::Refused(why)
    }
}

// Where room is what a caller has to bring, none is refusal 7.
impl From<Unanswered> for Refusal {
    ghost from_gives = { λ why refusal. RefusalFromUnansweredMeets why refusal };

    fn from(why: Unanswered) -> Refusal {
        match why {
            Unanswered::NoRoom => Refusal::Room,
            Unanswered::Refused(refusal) => refusal,
        }
    }
}

// No edge has more steps.
#[derive(Drop)]
pub struct Line {
    pub steps: usize,
}

impl Line {
    pub const LONGEST: usize = 128;
}

// Whether there is room for so many edges of any length, and for their ends.
pub fn has_room(many: usize, steps: usize, ends: usize) -> bool
    ensures { HasRoomMeets many steps ends result }
{
    if ends < many {
        return false;
    }
    many <= steps / Line::LONGEST
}

fn are_below(numbers: &[u64], count: u64) -> bool
    ensures { result ≡ list_all (λ n. ltb n count) numbers.now }
{
    numbers.iter().all(|&n| n < count)
}

// Whether every number is below the count.
pub fn all_below(numbers: &[u64], count: u64) -> bool
    ensures { AllBelowMeets numbers.now count result }
{
    are_below(numbers, count)
}

// The bytes of s from `from` up to, not including, `to`, as part of s: none where `to` isn't above `from`, and no more than s has.
pub fn part(s: &[u8], from: usize, to: usize) -> &[u8]
    ensures { PartMeets s.entry from to result }
{
    let a = from.min(s.len());
    let e = to.min(s.len());
    if e < a {
        return &s[a..a];
    }
    &s[a..e]
}
