//! The judge of allowed paths.

ghost use Rattle.std.specs.Prelude.{◌≡◌, ◌<◌, length};
ghost use Rattle.ds_base.specs.declared.verdict.Verdict.{Verdict};
ghost use Rattle.path_judges.specs.Members.{walk_of};
ghost use Rattle.path_judges.specs.Path.{IsPathVerdict, path_verdict};

use crate::matching::{count_begun, is_match};
use crate::pattern::PatternList;
use ds_base::{Group, SummaryList, Verdict};

/// Whether a packet kept to the paths that are allowed. Its walk is the list of the members' captures,
/// repeats kept. Fine where the walk matches a pattern; else Path with the greatest `n` such that the
/// first `n` captures of the walk begin some list of captures that matches a pattern.
pub fn judge_path(group: &Group, allow: &PatternList) -> Verdict
    requires some_pattern { 0 < length allow.now.items }
    ensures verdict { IsPathVerdict allow.now.items (walk_of group.now.members.items) result }
    ensures only { (other : Verdict) → IsPathVerdict allow.now.items (walk_of group.now.members.items) other → other ≡ result }
    ensures value { result ≡ path_verdict allow.now.items (walk_of group.now.members.items) }
{
    best_path(&group.members, allow)
}

// Each pattern in turn: the first that the walk matches ends it.
fn best_path(members: &SummaryList, allow: &PatternList) -> Verdict
    ensures { result ≡ path_verdict allow.now.items (walk_of members.now.items) }
{
    let mut at: u64 = 0;
    for i in 0..allow.len() {
        let pattern = allow.get(i);
        if is_match(members, pattern) {
            return Verdict::Fine;
        }
        at = at.max(count_begun(members, pattern));
    }
    Verdict::Path { at }
}
