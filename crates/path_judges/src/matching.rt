//! How much of a walk begins a pattern: the set of open positions, from the end of the walk.

ghost use Rattle.std.specs.Prelude.{◌≡◌, ℕ, List, [], ◌∷◌};
ghost use Rattle.path_judges.specs.Members.{walk_of};
ghost use Rattle.path_judges.specs.Pattern.{matches, begun};
ghost use Rattle.path_judges.specs.Open.{IsOpen, is_many, admits, opens};

use crate::pattern::{Pattern, Step};
use ds_base::SummaryList;

// A set of positions of a pattern, which are one more than its steps.
type Positions = [bool; 33];

// Whether the walk matches the pattern. It goes through the walk once, from its end, with the set of
// those positions from which the steps match the captures that it has passed; so many `Many` in a
// pattern cost no more than other steps.
pub fn is_match(members: &SummaryList, pattern: &Pattern) -> bool
    ensures { result ≡ matches pattern.now (walk_of members.now.items) }
{
    let mut positions = open_at_end(pattern);
    for i in (0..members.len()).rev() {
        positions = open_before(pattern, members.get(i).at.capture, &positions);
    }
    positions[0]
}

// The positions that are open for no capture: those with nothing but `Many` after them.
fn open_at_end(pattern: &Pattern) -> Positions
    ensures { IsOpen pattern.now [] result }
{
    let end = pattern.len() as usize;
    let mut positions = [false; 33];
    positions[end] = true;
    for k in (0..end).rev() {
        positions[k] = is_many(pattern.get(k as u32)) && positions[k + 1];
    }
    positions
}

// The positions that are open for a capture and what follows it, by those for what follows.
fn open_before(pattern: &Pattern, capture: u32, after: &Positions) -> Positions
    ensures { (rest : List ℕ) → IsOpen pattern.now rest after.now → IsOpen pattern.now (capture ∷ rest) result }
{
    let mut positions = [false; 33];
    for k in (0..pattern.len() as usize).rev() {
        positions[k] = opens(
            pattern.get(k as u32),
            capture,
            after[k + 1],
            positions[k + 1],
            after[k],
        );
    }
    positions
}

// How many captures of the walk begin a list that matches the pattern.
pub fn count_begun(members: &SummaryList, pattern: &Pattern) -> u64
    ensures { result ≡ begun pattern.now (walk_of members.now.items) }
{
    for k in 0..pattern.len() {
        let step = pattern.get(k);
        if is_many(step) {
            return members.len();
        }
        let taken = u64::from(k);
        if taken == members.len() || !admits(step, members.get(taken).at.capture) {
            return taken;
        }
    }
    u64::from(pattern.len())
}

fn is_many(step: Step) -> bool
    ensures { result ≡ is_many step }
{
    match step {
        Step::Point(_) | Step::One => false,
        Step::Many => true,
    }
}

fn admits(step: Step, capture: u32) -> bool
    ensures { result ≡ admits step capture }
{
    match step {
        Step::Point(point) => capture == point,
        Step::One | Step::Many => true,
    }
}

// Whether a step's position is open for a capture and what follows, by: the next position for what
// follows, the next for all of it, and its own for what follows.
fn opens(step: Step, capture: u32, next_after: bool, next: bool, own_after: bool) -> bool
    ensures { result ≡ opens step capture next_after next own_after }
{
    match step {
        Step::Point(point) => capture == point && next_after,
        Step::One => next_after,
        Step::Many => next || own_after,
    }
}
