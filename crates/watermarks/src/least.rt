//! The least of several marks, where a capture that has ended has none.
ghost use Rattle.std.specs.Prelude.{◌≡◌, ◌≤◌, take};
ghost use Rattle.watermarks.specs.Least.{least_mark, lesser};

use crate::slots::Slots;

/// The least of the first marks that are there.
pub(crate) fn least_of(marks: &Slots, captures: u32) -> Option<u64>
    requires { captures ≤ 64 }
    ensures { result ≡ least_mark (take captures marks.now) }
{
    let mut least = None;
    for capture in 0..captures {
        least = lesser_of(least, marks.get(capture));
    }
    least
}

/// The lesser of two marks, or the one that is there.
fn lesser_of(a: Option<u64>, b: Option<u64>) -> Option<u64>
    ensures { result ≡ lesser a b }
{
    match (a, b) {
        (Some(a), Some(b)) => Some(a.min(b)),
        (Some(a), None) => Some(a),
        (None, b) => b,
    }
}
