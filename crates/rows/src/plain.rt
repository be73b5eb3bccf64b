// Families 1 and 3, sheared by (x + y, y), and mirrored where n is below m, so that the end is at the lesser of the two and the table is small.
ghost use Rattle.std.specs.Prelude.{◌≡◌, ◌≤◌, true, slice_index};
ghost use Rattle.rules.specs.Blocks.{family_of, plain};
ghost use Rattle.tables.specs.Plans.{stride_for, cells_for};
ghost use Rattle.rows.specs.Calls.{EndOf};
ghost use Rattle.rows.specs.Plains.{plain_of, plain_plan, plain_back, plain_end, rises, is_across, PlainSizes, PlainRange};

use job::{Family, Job, Refusal, Step};

// The end (n, m), and whether there is a step D.
#[derive(Clone, Copy)]
pub(crate) struct Plain {
    pub n: u8,
    pub m: u8,
    pub diagonal: bool,
}

impl Plain {
    // The highest end that a table is filled for: where n and m are both above it the count needs more than 64 bits.
    pub(crate) const HIGHEST: usize = 33;

    fn of_job(job: Job) -> Plain
        requires { 128 ≤ job.m }
        ensures { result ≡ plain_of job }
    {
        Plain {
            n: job.n,
            m: job.m - Job::LEVEL,
            diagonal: job.family == Family::Delannoy,
        }
    }

    // The end of a block's job whose family is 1 or 3, or refusal 1, 2 or 3.
    pub(crate) fn of(block: &[u8]) -> Result<Plain, Refusal>
        requires { plain (family_of block.now) ≡ true }
        ensures { EndOf block.now result }
    {
        let job = Job::of(block)?;
        Ok(Plain::of_job(job))
    }

    // Whether the byte b is a D, and that is a step of the job.
    pub(crate) fn is_across(self, b: u8) -> bool
        ensures { result ≡ is_across self b }
    {
        b == Step::DIAGONAL && self.diagonal
    }

    // The column of the end.
    pub(crate) fn width(self) -> usize
        ensures { result ≡ (plain_plan self).ex }
    {
        usize::from(self.n) + usize::from(self.m)
    }

    // The height of the end: the lesser of n and m.
    pub(crate) fn height(self) -> usize
        ensures { result ≡ (plain_plan self).ey }
    {
        usize::from(self.n.min(self.m))
    }

    // How far up N goes. E goes up by the rest of 1.
    pub(crate) fn rise(self) -> usize
        ensures { result ≡ rises self }
    {
        usize::from(self.m <= self.n)
    }

    // How many cells a column has: a zero, and the heights to the end's.
    pub(crate) fn stride(self) -> usize
        requires { PlainSizes self }
        ensures { result ≡ stride_for (plain_plan self) }
    {
        self.height() + 2
    }

    // How far back the cell lies that N brings.
    pub(crate) fn north(self) -> usize
        requires { PlainSizes self }
        ensures { result ≡ slice_index (plain_back self) 0 }
    {
        self.stride() + self.rise()
    }

    // How far back the cell lies that E brings. D's lies as far back as both together.
    pub(crate) fn east(self) -> usize
        requires { PlainSizes self }
        ensures { result ≡ slice_index (plain_back self) 1 }
    {
        self.stride() + (1 - self.rise())
    }

    // Where the end's count stands.
    pub(crate) fn end(self) -> usize
        requires { PlainSizes self }
        ensures { result ≡ plain_end self }
    {
        (self.width() + 1) * self.stride() + (self.height() + 1)
    }

    // How many cells the table has.
    pub(crate) fn cells(self) -> usize
        requires { PlainRange self }
        ensures { result ≡ cells_for (plain_plan self) }
    {
        (self.width() + 2) * (self.height() + 2)
    }
}
