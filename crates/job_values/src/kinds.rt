//! What a value of JSON is: a number, a signed number, a text, a flag, a list.

ghost use Rattle.std.specs.Prelude.{◌≡◌};
ghost use Rattle.std.specs.Result.{result_map_both};
ghost use Rattle.serde_json.specs.View.{view, items_view};
ghost use Rattle.job_values.specs.Values.{number, signed_number, text, flag, list};

use crate::fault::{JobFault, JobWhat, fault_at};
use crate::member::Member;
use serde_json::Value;

/// The number that a value is: a whole number of 0 to 2^64 - 1.
pub fn number(value: &Value, member: Member, index: u32) -> Result<u64, JobFault>
    ensures { result ≡ number member index (view value.now) }
{
    match value.as_u64() {
        Some(n) => Ok(n),
        None => Err(fault_at(member, index, JobWhat::WrongKind)),
    }
}

/// The signed number that a value is: a whole number of -(2^63) to 2^63 - 1.
pub fn signed_number(value: &Value, member: Member, index: u32) -> Result<i64, JobFault>
    ensures { result ≡ signed_number member index (view value.now) }
{
    match value.as_i64() {
        Some(n) => Ok(n),
        None => Err(fault_at(member, index, JobWhat::WrongKind)),
    }
}

/// The text that a value is.
pub fn text(value: &Value, member: Member, index: u32) -> Result<&str, JobFault>
    ensures { result_map_both (λ text. text.now) (λ fault. fault) result ≡ text member index (view value.now) }
{
    match value.as_str() {
        Some(text) => Ok(text),
        None => Err(fault_at(member, index, JobWhat::WrongKind)),
    }
}

/// The truth value that a value is.
pub fn flag(value: &Value, member: Member, index: u32) -> Result<bool, JobFault>
    ensures { result ≡ flag member index (view value.now) }
{
    match value.as_bool() {
        Some(flag) => Ok(flag),
        None => Err(fault_at(member, index, JobWhat::WrongKind)),
    }
}

/// The list that a value is.
pub fn list(value: &Value, member: Member, index: u32) -> Result<&Vec<Value>, JobFault>
    ensures { result_map_both (λ list. items_view list.now.items) (λ fault. fault) result
        ≡ list member index (view value.now) }
{
    match value.as_array() {
        Some(list) => Ok(list),
        None => Err(fault_at(member, index, JobWhat::WrongKind)),
    }
}
