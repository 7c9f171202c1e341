//! The ranges of numbers in frames.
ghost use Rattle.std.specs.Prelude.{◌≡◌, ◌<◌, ◌≤◌, ◌+◌, ◌^◌, ◌↔◌, IsTrue};
ghost use Rattle.run_law.specs.Links.{IsTime, AreCounts};

use ds_base::Counts;

/// Whether a time or a mark is in range.
pub(crate) fn is_time(time: u64) -> bool
    ensures { IsTrue result ↔ IsTime time }
{
    time < 1 << 63
}

/// Whether the counts of a capture are in range, and their parts make the whole.
pub(crate) fn are_counts(counts: &Counts) -> bool
    ensures { IsTrue result ↔ AreCounts counts.now }
{
    is_few(counts.records) && are_parts(counts)
}

/// Whether there can be so many records.
fn is_few(records: u64) -> bool
    ensures { IsTrue result ↔ (records ≤ 2 ^ 40) }
{
    records <= 1 << 40
}

/// Whether the records are those of the parts.
fn are_parts(counts: &Counts) -> bool
    ensures { IsTrue result ↔ (counts.now.records ≡ counts.now.unmatched + counts.now.late + counts.now.accepted) }
{
    counts.unmatched <= counts.records
        && counts.late <= counts.records - counts.unmatched
        && counts.accepted == counts.records - counts.unmatched - counts.late
}

/// Whether both numbers together are at most `most`.
pub(crate) fn is_within_sum(a: u64, b: u64, most: u64) -> bool
    ensures { IsTrue result ↔ (a + b ≤ most) }
{
    a <= most && b <= most - a
}
