// The steps of a job as pairs, in every family.
ghost use Rattle.std.specs.Prelude.{◌≡◌, ◌≤◌};
ghost use Rattle.walks.specs.Paces.{lettered_paces, paired_paces, paces_of, LetterOf, within};

use job::{Family, Job};

// What a walk asks of a job: whether its letters are N E D, whether it stays at y ≤ x or at y ≥ 0, its end, with m raised by 128, and its
// steps (a,b), with b raised by 128.
// kept: a and b are two arrays, as a Job has them, and are copied whole; pairs would be made of the two entry by entry.
#[derive(Clone, Copy)]
pub(crate) struct Paces {
    pub lettered: bool,
    pub square: bool,
    pub fenced: bool,
    pub n: usize,
    pub m: usize,
    pub k: usize,
    pub a: [u8; Job::STEPS],
    pub b: [u8; Job::STEPS],
}

impl Paces {
    // Which of the k steps a byte is, if any.
    #[tactic(auto, unfolding(crate::specs::Paces::letter_of))]
    pub(crate) fn letter_of(&self, b: u8) -> Option<usize>
        ensures { LetterOf self.now b result }
    {
        let place = letters::ordinal_of(self.lettered, b);
        if place < self.k { Some(place) } else { None }
    }

    // The "stays" rule at x and h, and that y isn't beyond the end, where the letters are N E D.
    pub(crate) fn is_within(&self, x: usize, h: usize) -> bool
        requires { (x ≤ 64) × (self.now.m ≤ 224) }
        ensures { result ≡ within self.now x h }
    {
        if self.lettered {
            h <= 3 * x + self.m && (!self.square || h <= 4 * x + Job::GROUND)
        } else {
            !self.fenced || 3 * x + Job::GROUND <= h
        }
    }
}

// The steps of families 1 to 5: N is (0,u), E is (u,0), and D, where k is 3, is (1,1).
fn lettered_paces(square: bool, n: usize, m: usize, k: usize, u: u8) -> Paces
    requires { u ≤ 2 }
    ensures { result ≡ lettered_paces square n m k u }
{
    Paces {
        lettered: true,
        square,
        fenced: false,
        n,
        m,
        k,
        a: [0, u, 1, 0, 0, 0, 0, 0],
        b: [Job::LEVEL + u, Job::LEVEL, Job::LEVEL + 1, 0, 0, 0, 0, 0],
    }
}

// The steps of families 6 and 7: the pairs of the block.
fn paired_paces(job: Job, fenced: bool) -> Paces
    ensures { result ≡ paired_paces fenced job }
{
    let Job { n, m, k, a, b, .. } = job;
    Paces {
        lettered: false,
        square: false,
        fenced,
        n: usize::from(n),
        m: usize::from(m),
        k: usize::from(k),
        a,
        b,
    }
}

#[tactic(auto, unfolding(crate::specs::Paces::paces_of))]
pub(crate) fn paces_of(job: Job) -> Paces
    requires { job.n ≤ 64 }
    ensures { result ≡ paces_of job }
{
    let n = usize::from(job.n);
    let m = usize::from(job.m);
    match job.family {
        Family::NorthEast => lettered_paces(false, n, m, 2, 1),
        Family::Dyck => lettered_paces(true, n, n + Job::GROUND, 2, 1),
        Family::Delannoy => lettered_paces(false, n, m, 3, 1),
        Family::Schroder => lettered_paces(true, n, n + Job::GROUND, 3, 1),
        Family::Motzkin => lettered_paces(true, n, n + Job::GROUND, 3, 2),
        Family::Open => paired_paces(job, false),
        Family::Fenced => paired_paces(job, true),
    }
}
