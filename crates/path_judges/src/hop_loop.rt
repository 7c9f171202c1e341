//! The judge of packets that came back.

ghost use Rattle.std.specs.Prelude.{◌≡◌, ◌<◌, ◌≤◌, length, All, take, Some, IsSome};
ghost use Rattle.std.specs.List.{find};
ghost use Rattle.std.specs.Option.{option_map};
ghost use Rattle.ds_base.specs.declared.verdict.Verdict.{Verdict};
ghost use Rattle.path_judges.specs.Members.{capture_of, value_of};
ghost use Rattle.path_judges.specs.Loop.{is_above, IsLoopVerdict, loop_verdict};

use crate::members::value_at;
use ds_base::{Group, Summary, SummaryList, Verdict};

/// Whether a packet came back: Loop where a capture saw it again with a lesser value of the variable
/// `hop`. With the least `j`, and then the least `i` below it, such that members `i` and `j` are of one
/// capture and the value of `i` exceeds that of `j`, it has that capture and both values. Else Fine.
pub fn judge_loop(group: &Group, hop: u32) -> Verdict
    requires captures { All (λ member. capture_of member < 64) group.now.members.items }
    requires values { All (λ member. hop < length member.vals) group.now.members.items }
    ensures verdict { IsLoopVerdict hop group.now.members.items result }
    ensures only { (other : Verdict) → IsLoopVerdict hop group.now.members.items other → other ≡ result }
    ensures value { result ≡ loop_verdict hop group.now.members.items }
{
    first_loop(&group.members, hop)
}

// One pass with the greatest value so far of each capture. The first member that has less than that
// is `j`; a second pass up to it finds `i`.
fn first_loop(members: &SummaryList, hop: u32) -> Verdict
    requires captures { All (λ member. capture_of member < 64) members.now.items }
    requires values { All (λ member. hop < length member.vals) members.now.items }
    ensures { result ≡ loop_verdict hop members.now.items }
{
    let mut greatest = [0u128; 64];
    for j in 0..members.len() {
        let member = members.get(j);
        let capture = member.at.capture;
        let low = value_at(member, hop);
        if low < greatest[capture as usize] {
            let high = first_above(members, hop, j, member);
            return Verdict::Loop { capture, high, low };
        }
        greatest[capture as usize] = low;
    }
    Verdict::Fine
}

// The hop value of the first of the members below `end` that is above `low`.
fn first_above(members: &SummaryList, hop: u32, end: u64, low: &Summary) -> u128
    requires within { end ≤ length members.now.items }
    requires values { All (λ member. hop < length member.vals) members.now.items }
    requires low_value { hop < length low.now.vals }
    requires one_is { IsSome (find (is_above hop low.now) (take end members.now.items)) }
    ensures { option_map (value_of hop) (find (is_above hop low.now) (take end members.now.items)) ≡ Some result }
{
    for i in 0..end {
        let member = members.get(i);
        if exceeds(member, low, hop) {
            return value_at(member, hop);
        }
    }
    unreachable!()
}

// Whether a member is of the capture of `low` and has a greater value.
fn exceeds(member: &Summary, low: &Summary, hop: u32) -> bool
    requires value { hop < length member.now.vals }
    requires low_value { hop < length low.now.vals }
    ensures { result ≡ is_above hop low.now member.now }
{
    member.at.capture == low.at.capture && value_at(low, hop) < value_at(member, hop)
}
