//! The ranges of numbers in frames.
ghost use Rattle.std.specs.Prelude.{◌≡◌, ◌≤◌, ◌+◌, ◌*◌, ◌↔◌, IsTrue, sum};
ghost use Rattle.run_law.specs.Links.{IsTime};

/// Whether a time or a mark is in range.
pub(crate) fn is_time(time: u64) -> bool
    ensures { IsTrue result ↔ IsTime time }
{
    time < 1 << 63
}

/// Whether both numbers together are at most `most`.
pub(crate) fn is_within_sum(a: u64, b: u64, most: u64) -> bool
    ensures { IsTrue result ↔ (a + b ≤ most) }
{
    a <= most && b <= most - a
}

/// Whether the numbers come to this sum. Their sum may be any number, so they are taken off it one by one.
pub(crate) fn is_sum_of(total: u64, numbers: &[u64]) -> bool
    ensures { IsTrue result ↔ (total ≡ sum numbers.now) }
{
    match numbers {
        [] => total == 0,
        [first, rest @ ..] => *first <= total && is_sum_of(total - *first, rest),
    }
}

/// Whether so many delays, each at most `greatest`, can come to this sum.
pub(crate) fn is_sum_within(total: u128, count: u64, greatest: u64) -> bool
    ensures { IsTrue result ↔ (total ≤ count * greatest) }
{
    total <= u128::from(count) * u128::from(greatest)
}
