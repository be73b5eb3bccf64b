// Questions on edges (document 01): the earlier of two lent edges, and the dip of one.
#![tactic(auto)]

ghost use Rattle.std.specs.Prelude.{◌≡◌, ltb};
ghost use Rattle.questions.specs.Replies.{which_of};
ghost use Rattle.questions.specs.Steps.{Digits, RisesAs};
ghost use Rattle.questions.specs.Meets.{CompareMeets, EarlierMeets, EarlierRefusalMeets, DipMeets};

use job::{Job, Refusal, Step};

// Which of two edges is the earlier.
#[derive(Clone, Copy, Debug, PartialEq, Eq)]
pub enum Which {
    First,
    Second,
}

// By number; of equal ones the first.
fn which_of(a: u64, b: u64) -> Which
    ensures { result ≡ which_of (ltb b a) }
{
    if b < a { Which::Second } else { Which::First }
}

// Which of two edges of one job is the earlier (document 01, "Questions on edges"): the numbers decide.
pub fn compare(block: &[u8], a: &[u8], b: &[u8]) -> Result<Which, Refusal>
    ensures { CompareMeets block.now a.now b.now result }
{
    let x = calls::number(block, a)?;
    let y = calls::number(block, b)?;
    Ok(which_of(x, y))
}

// The earlier of two lent edges, itself; on a refusal the empty part at the front of the first.
pub fn earlier<'a>(block: &[u8], a: &'a [u8], b: &'a [u8]) -> &'a [u8]
    ensures { EarlierMeets block.now a.entry b.entry result }
{
    match compare(block, a, b) {
        Ok(Which::First) => a,
        Ok(Which::Second) => b,
        Err(_) => &a[0..0],
    }
}

// The refusal number of that question, 0 if none.
// kept: a number, and no Option: "a partner question gives the refusal number, 0 if none", and `EarlierRefusalMeets` says it.
pub fn earlier_refusal(block: &[u8], a: &[u8], b: &[u8]) -> u8
    ensures { EarlierRefusalMeets block.now a.now b.now result }
{
    match compare(block, a, b) {
        Ok(_) => 0,
        Err(refusal) => u8::from(refusal),
    }
}

// The first step that rises after one that falls, in a valid edge of family 6 or 7.
fn first_rise(job: Job, edge: &[u8]) -> Option<usize>
    requires { Digits job edge.now }
    ensures { RisesAs job edge.now result }
{
    let mut fallen = false;
    for (i, &digit) in edge.iter().enumerate() {
        let up = job.b[usize::from(digit - Step::FIRST)];
        if fallen && Job::LEVEL < up {
            return Some(i);
        }
        fallen |= up < Job::LEVEL;
    }
    None
}

// Whether an edge of family 6 or 7 dips, and where (document 01, "Questions on edges"): it is walked, not numbered. "11 Kind: dip asked in
// families 1 to 5", after refusal 4 and before 5.
pub fn dip(block: &[u8], edge: &[u8]) -> Result<Option<usize>, Refusal>
    ensures { DipMeets block.now edge.now result }
{
    let job = Job::of(block)?;
    calls::count(block)?;
    let without_steps = !job::is_paired(job::family_of(block));
    if without_steps {
        return Err(Refusal::Kind);
    }
    match walks::walk(block, edge)? {
        None => Ok(first_rise(job, edge)),
        Some(_) => Err(Refusal::NotEdge),
    }
}
