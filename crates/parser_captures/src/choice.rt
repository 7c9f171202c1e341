//! The choice of the capture that is taken next.
ghost use Rattle.std.specs.Prelude.{◌≡◌, ◌<◌, ◌+◌, true, false, length};
ghost use Rattle.parser_captures.specs.Choice.{IsBest};
ghost use Rattle.net_law.specs.Parsers.{IsBehind};

use crate::capture::OneCapture;

/// The capture that goes on and has the least newest time, where none is before every time; of equal ones the lowest.
/// None: all have ended.
pub fn choose(captures: &Vec<OneCapture>) -> Option<usize>
    ensures best { IsBest captures.now.items (length captures.now.items) result }
{
    let mut best = None;
    'captures: for i in 0..captures.len() {
        best = better(captures, best, i);
    }
    best
}

/// The best of the first captures and of the next one.
fn better(captures: &Vec<OneCapture>, best: Option<usize>, i: usize) -> Option<usize>
    requires there { i < length captures.now.items }
    requires so_far { IsBest captures.now.items i best }
    ensures best { IsBest captures.now.items (i + 1) result }
{
    if captures[i].ended {
        return best;
    }
    let Some(b) = best else {
        return Some(i);
    };
    if comes_first(captures[i].tally.newest(), captures[b].tally.newest()) {
        Some(i)
    } else {
        Some(b)
    }
}

/// Whether the first time is before the second, where none is before every time.
fn comes_first(time: Option<u64>, other: Option<u64>) -> bool
    ensures first { result ≡ true → IsBehind time other }
    ensures other { result ≡ false → IsBehind other time }
{
    match (time, other) {
        (_, None) => false,
        (None, Some(_)) => true,
        (Some(time), Some(other)) => time < other,
    }
}
