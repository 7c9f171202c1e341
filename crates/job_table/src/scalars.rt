//! The rows with one value: version, port, window, skew, profile.

ghost use Rattle.std.specs.Prelude.{◌≡◌, ◌≤◌, ◌<◌, ◌^◌, IfOk};
ghost use Rattle.serde_json.specs.View.{view};
ghost use Rattle.job_table.specs.Limits.{longest, newest_version};
ghost use Rattle.job_table.specs.Table.{version, port_value, vxlan_port, window, skew, profile};

use crate::rules::in_limits;
use ds_base::HOUR;
use job_values::{JobFault, Member, flag, needed, number};
use serde_json::Value;

/// The newest version of a declaration; the oldest is 1.
const NEWEST_VERSION: u64 = 3;

/// The version of the declaration.
pub fn version(value: &Value) -> Result<u32, JobFault>
    ensures answer { result ≡ version (view value.now) }
    ensures limits { IfOk result (λ n. (1 ≤ n) × (n ≤ newest_version)) }
{
    let found = needed(value, "version", Member::Version, 0)?;
    let n = number(found, Member::Version, 0)?;
    let version = in_limits(n, 1, NEWEST_VERSION, Member::Version, 0)?;
    Ok(version as u32)
}

/// The UDP port of VXLAN, 4789 where none is given.
pub fn vxlan_port(value: &Value) -> Result<u16, JobFault>
    ensures answer { result ≡ vxlan_port (view value.now) }
    ensures limits { IfOk result (λ n. (1 ≤ n) × (n < 2 ^ 16)) }
{
    match value.get("vxlan_port") {
        Some(found) => port_value(found),
        None => Ok(4789),
    }
}

fn port_value(value: &Value) -> Result<u16, JobFault>
    ensures answer { result ≡ port_value (view value.now) }
    ensures limits { IfOk result (λ n. (1 ≤ n) × (n < 2 ^ 16)) }
{
    let n = number(value, Member::VxlanPort, 0)?;
    let port = in_limits(n, 1, 65535, Member::VxlanPort, 0)?;
    Ok(port as u16)
}

/// How long after a group's first its members may be, in nanoseconds.
pub fn window(value: &Value) -> Result<u64, JobFault>
    ensures answer { result ≡ window (view value.now) }
    ensures most { IfOk result (λ n. n ≤ longest) }
{
    let found = needed(value, "window", Member::Window, 0)?;
    let n = number(found, Member::Window, 0)?;
    in_limits(n, 0, HOUR, Member::Window, 0)
}

/// How long before the newest record of its capture a record may be, in nanoseconds.
pub fn skew(value: &Value) -> Result<u64, JobFault>
    ensures answer { result ≡ skew (view value.now) }
    ensures most { IfOk result (λ n. n ≤ longest) }
{
    let found = needed(value, "skew", Member::Skew, 0)?;
    let n = number(found, Member::Skew, 0)?;
    in_limits(n, 0, HOUR, Member::Skew, 0)
}

/// Whether the delays between captures are reported; not where none is given.
pub fn profile(value: &Value) -> Result<bool, JobFault>
    ensures { result ≡ profile (view value.now) }
{
    match value.get("profile") {
        Some(found) => flag(found, Member::Profile, 0),
        None => Ok(false),
    }
}
