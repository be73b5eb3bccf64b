// The counts of families 1 and 3, with one row of the table at a time: document 01's L and D.
#![tactic(auto)]

ghost use Rattle.std.specs.Prelude.{◌≡◌, ◌≤◌, length, is_some};
ghost use Rattle.plains.specs.Plains.{NextRow};
ghost use Rattle.plains.specs.Meets.{CountMeets};

use job::Refusal;

// From the row of one column to that of the next, or None where a count of it needs more than 64 bits.
fn next_row(row: &mut [u64; 34], n: usize, diagonal: bool) -> Option<()>
    requires { (n ≤ 33) × (length row.old ≡ 34) }
    ensures { NextRow diagonal n row.old row.new (is_some result) }
{
    let mut before: u64 = 1;
    let mut sum: u64 = 1;
    for i in 1..=n {
        let a = row[i];
        let b = if diagonal { before } else { 0 };
        let two = sum.checked_add(a)?;
        sum = two.checked_add(b)?;
        row[i] = sum;
        before = a;
    }
    Some(())
}

// The count to (n, m), where n is the lesser.
fn count_rows(n: usize, m: usize, diagonal: bool) -> Result<u64, Refusal>
    requires { n ≤ 33 }
    ensures { CountMeets n m diagonal result }
{
    let mut row = [1u64; 34];
    for _ in 0..m {
        next_row(&mut row, n, diagonal).ok_or(Refusal::Over)?;
    }
    Ok(row[n])
}

// How many edges lead to (n, m) by N and E, and by D where `diagonal`; refusal 4 if they need more than 64 bits, as they do where both n and
// m are above 33.
pub fn count(n: u8, m: u8, diagonal: bool) -> Result<u64, Refusal>
    ensures { CountMeets n m diagonal result }
{
    let rows: u8 = 33;
    if n <= rows {
        return count_rows(usize::from(n), usize::from(m), diagonal);
    }
    if m <= 33 {
        return count_rows(usize::from(m), usize::from(n), diagonal);
    }
    Err(Refusal::Over)
}
