// The families 2, 4 and 5: which a block's is, how far its counts fit 64 bits, and those counts.
ghost use Rattle.std.specs.Prelude.{◌≡◌, ◌≤◌, Ok};
ghost use Rattle.lines.specs.Known.{CountsOf};
ghost use Rattle.arch.specs.Answers.{arch_job};
ghost use Rattle.arch.specs.Squares.{SquareIs, job_of, limit_of};

use crate::counts::{DYCK_LIMIT, MOTZKIN, MOTZKIN_LIMIT, SCHRODER, SCHRODER_LIMIT};
use crate::dyck::dyck_counts;
use crate::parts::Parts;

// A family whose edges end at (n,n) and stay at y ≤ x.
#[derive(Clone, Copy)]
pub(crate) enum Square {
    Dyck,
    Schroder,
    Motzkin,
}

impl Square {
    // The family of a number, if it is one of these.
    pub(crate) fn of(family: u8) -> Option<Square>
        ensures { SquareIs family result }
    {
        match family {
            2 => Some(Square::Dyck),
            4 => Some(Square::Schroder),
            5 => Some(Square::Motzkin),
            _ => None,
        }
    }

    // The largest n whose count fits 64 bits.
    pub(crate) fn limit(self) -> usize
        ensures { result ≡ limit_of self }
    {
        match self {
            Square::Dyck => DYCK_LIMIT,
            Square::Schroder => SCHRODER_LIMIT,
            Square::Motzkin => MOTZKIN_LIMIT,
        }
    }

    // C(n), S(n) or M(n).
    pub(crate) fn count(self, n: usize) -> u64
        requires { n ≤ limit_of self }
        ensures { CountsOf (job_of self n) (Ok result) }
    {
        match self {
            Square::Dyck => dyck_counts(n)[n],
            Square::Schroder => SCHRODER[n],
            Square::Motzkin => MOTZKIN[n],
        }
    }

    // The same for 0, 1, .., n, to lend along.
    pub(crate) fn counts(self, n: usize) -> Parts
        requires { n ≤ limit_of self }
        ensures { arch_job result.d result.v result.n ≡ job_of self n }
    {
        match self {
            Square::Dyck => Parts {
                d: false,
                v: 0,
                n,
                table: dyck_counts(n),
            },
            Square::Schroder => Parts {
                d: true,
                v: 0,
                n,
                table: SCHRODER,
            },
            Square::Motzkin => Parts {
                d: true,
                v: 1,
                n,
                table: MOTZKIN,
            },
        }
    }
}
