//! What a judge reads of a member.

ghost use Rattle.std.specs.Prelude.{◌≡◌, ◌<◌, length};
ghost use Rattle.path_judges.specs.Members.{value_of};

use ds_base::Summary;

// The value of a variable in a member.
#[tactic(auto, using(std::proofs::lemmas::Option::get_or_from_slice_get))]
pub fn value_at(member: &Summary, var: u32) -> u128
    requires { var < length member.now.vals }
    ensures { result ≡ value_of var member.now }
{
    member.vals.get(var)
}
