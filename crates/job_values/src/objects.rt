//! Objects: their members, and strays.

ghost use Rattle.std.specs.Prelude.{◌≡◌, map, not, bytes_eq, string_bytes};
ghost use Rattle.std.specs.List.{list_any};
ghost use Rattle.std.specs.Result.{result_map_both};
ghost use Rattle.serde_json.specs.View.{view, members_view};
ghost use Rattle.std.specs.BTreeMap.{keys};
ghost use Rattle.job_values.specs.Values.{object, needed, no_stray};

use crate::fault::{JobFault, JobWhat, fault_at};
use crate::member::Member;
use serde_json::{Map, Value};

/// The object that a value is.
pub fn object(value: &Value, member: Member, index: u32) -> Result<&Map<String, Value>, JobFault>
    ensures { result_map_both (λ map. members_view map.now.entries) (λ fault. fault) result
        ≡ object member index (view value.now) }
{
    match value.as_object() {
        Some(map) => Ok(map),
        None => Err(fault_at(member, index, JobWhat::WrongKind)),
    }
}

/// The value of a member that an object needs.
pub fn needed<'v>(
    value: &'v Value,
    name: &str,
    member: Member,
    index: u32,
) -> Result<&'v Value, JobFault>
    ensures { result_map_both (λ value. view value.now) (λ fault. fault) result
        ≡ needed member index name.now (view value.now) }
{
    match value.get(name) {
        Some(found) => Ok(found),
        None => Err(fault_at(member, index, JobWhat::Missing)),
    }
}

/// Refuses an object with a member that has none of the known names.
pub fn no_stray(
    members: &Map<String, Value>,
    known: &[&str],
    member: Member,
    index: u32,
) -> Result<(), JobFault>
    ensures { result ≡ no_stray member index (map (λ name. name.now) known.now) (members_view members.now.entries) }
{
    if some_unknown(members, known) {
        return Err(fault_at(member, index, JobWhat::Stray));
    }
    Ok(())
}

// Whether some member has none of the known names.
fn some_unknown(members: &Map<String, Value>, known: &[&str]) -> bool
    ensures { result ≡ list_any (λ key. not (list_any (λ one. bytes_eq one.now (string_bytes key)) known.now)) (keys members.now) }
{
    members.keys().any(|name| !is_known(known, name.as_str()))
}

// Whether this is one of the names.
fn is_known(known: &[&str], name: &str) -> bool
    ensures { result ≡ list_any (λ one. bytes_eq one.now name.now) known.now }
{
    known.iter().any(|one| *one == name)
}
