//! The row of a capture's interface.

ghost use Rattle.std.specs.Prelude.{◌≡◌, ◌≤◌, IfOk, IfSome};
ghost use Rattle.serde_json.specs.View.{view};
ghost use Rattle.job_table.specs.Limits.{last_interface};
ghost use Rattle.job_table.specs.Table.{interface_value, capture_interface};

use crate::rules::in_limits;
use job_values::{JobFault, Member, number};
use serde_json::Value;

/// The greatest number of an interface.
const LAST_INTERFACE: u64 = 65_535;

/// The interface whose packets are the records of a capture, where one is given.
pub(crate) fn capture_interface(value: &Value, index: u32) -> Result<Option<u32>, JobFault>
    ensures answer { result ≡ capture_interface index (view value.now) }
    ensures most { IfOk result (λ own. IfSome own (λ n. n ≤ last_interface)) }
{
    match value.get("interface") {
        Some(found) => interface_value(found, index),
        None => Ok(None),
    }
}

fn interface_value(value: &Value, index: u32) -> Result<Option<u32>, JobFault>
    ensures answer { result ≡ interface_value index (view value.now) }
    ensures most { IfOk result (λ own. IfSome own (λ n. n ≤ last_interface)) }
{
    let n = number(value, Member::CapturesInterface, index)?;
    in_limits(n, 0, LAST_INTERFACE, Member::CapturesInterface, index)?;
    Ok(Some(n as u32))
}
