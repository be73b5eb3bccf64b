// The counts of family 2, each worked out by calling itself on an arch's two parts: document 01's C.
ghost use Rattle.std.specs.Prelude.{◌≡◌, false, ◌+◌, ◌≤◌, length};
ghost use Rattle.arches.specs.Counts.{count};
ghost use Rattle.arch.specs.Table.{Table};
ghost use Rattle.arch.specs.Memo.{Filled, Good, Kept};

// C(n) of a part, with what is known so far lent along: what is known is not worked out again. Only count_memo calls this, so
// that it is compiled to a test there, and a call is made for what is not known.
#[cycle(count_memo_part_count)]
fn part_count(memo: &mut [u64; 46], n: usize) -> u64
    requires { (n ≤ 36) × Good memo.old × (length memo.old ≡ 46) }
    ensures { (result ≡ count false 0 n) × Good memo.new × Kept memo.old memo.new × Filled (n + 1) memo.new }
{
    // kept: 0, which no count is, says that it isn't known, since the memo is lent on as the table; with an Option for each it is twice as long, and copied.
    let known = memo[n];
    if known != 0 {
        return known;
    }
    count_memo(memo, n)
}

// C(n), worked out from the counts of an arch's two parts, and kept, as all that it is made of is. The products for i and n - 1 - i are equal, so half of them
// are worked out: the middle ones first, so that the calls stay few deep.
#[cycle(count_memo_part_count)]
fn count_memo(memo: &mut [u64; 46], n: usize) -> u64
    requires { (n ≤ 36) × Good memo.old × (length memo.old ≡ 46) }
    ensures { (result ≡ count false 0 n) × Good memo.new × Kept memo.old memo.new × Filled (n + 1) memo.new }
{
    if n == 0 {
        memo[0] = 1;
        return 1;
    }
    let half = n / 2;
    let mut sum: u64 = 0;
    for i in (0..half).rev() {
        let a = part_count(memo, i);
        let b = part_count(memo, n - 1 - i);
        sum += a * b;
    }
    let twice = sum + sum;
    if n % 2 == 0 {
        memo[n] = twice;
        return twice;
    }
    let a = part_count(memo, half);
    let c = twice + a * a;
    memo[n] = c;
    c
}

// C(0), C(1), .., C(n), to lend along: what one count leaves in its memo.
pub(crate) fn dyck_counts(n: usize) -> [u64; 46]
    requires { n ≤ 36 }
    ensures { Table false 0 n result }
{
    let mut memo: [u64; 46] = [0; 46];
    count_memo(&mut memo, n);
    memo
}
