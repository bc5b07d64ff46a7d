// Tests of numbers against bounds, which several rules share.
ghost use Rattle.std.specs.Prelude.{◌≡◌, ◌+◌, ◌≤◌, length, nat_lt};
ghost use Rattle.plank_core.specs.Lists.{all, upto};
ghost use Rattle.sir_data.specs.Records.{word};
ghost use Rattle.sir_data.specs.Rules.{range_ok};

// Is this a range of a list of n?
pub fn range_ok(start: u32, end: u32, n: u32) -> bool
    ensures { result ≡ range_ok start end n }
{
    start <= end && end <= n
}

// Is each of the `count` words from `start` on below n?
pub fn all_below(words: &[u32], start: usize, count: u32, n: u32) -> bool
    requires { start + count ≤ length words.now }
    ensures { result ≡ all (λ i. nat_lt (word words.now (start + i)) n) (upto count) }
{
    let end = start + count as usize;
    words[start..end].iter().all(|word| *word < n)
}
