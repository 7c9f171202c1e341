//! The judge of lost packets.

ghost use Rattle.std.specs.Prelude.{◌≡◌, ◌<◌, length, All};
ghost use Rattle.std.specs.List.{list_any};
ghost use Rattle.ds_base.specs.declared.verdict.Verdict.{Verdict};
ghost use Rattle.path_judges.specs.Members.{capture_of};
ghost use Rattle.path_judges.specs.Drop.{is_of_exit, IsDropVerdict, drop_verdict};

use ds_base::{Group, SummaryList, Verdict};

/// Whether a packet was lost on its way: Fine where a member of the group is of an exit, else Dropped
/// with the capture of the last member. Bit `c` of `exits` is set where capture `c` is an exit.
pub fn judge_drop(group: &Group, exits: u64) -> Verdict
    requires not_empty { 0 < length group.now.members.items }
    requires captures { All (λ member. capture_of member < 64) group.now.members.items }
    ensures verdict { IsDropVerdict exits group.now.members.items result }
    ensures only { (other : Verdict) → IsDropVerdict exits group.now.members.items other → other ≡ result }
    ensures value { result ≡ drop_verdict exits group.now.members.items }
{
    let members = &group.members;
    if reach_exit(members, exits) {
        return Verdict::Fine;
    }
    Verdict::Dropped {
        capture: members.get(members.len() - 1).at.capture,
    }
}

// Whether a member is of an exit.
fn reach_exit(members: &SummaryList, exits: u64) -> bool
    requires { All (λ member. capture_of member < 64) members.now.items }
    ensures { result ≡ list_any (is_of_exit exits) members.now.items }
{
    for i in 0..members.len() {
        if exits >> members.get(i).at.capture & 1 == 1 {
            return true;
        }
    }
    false
}
