//! A declaration, read from its bytes.

ghost use Rattle.std.specs.Prelude.{◌≡◌, ◌≤◌, IfOk, IsUtf8, length};
ghost use Rattle.serde_json.specs.View.{view};
ghost use Rattle.job_values.specs.Said.{Answers, or_fault};
ghost use Rattle.job_values.specs.declared.member.Member.TheVariants as member;
ghost use Rattle.job_values.specs.declared.fault.JobWhat.TheVariants as what;
ghost use Rattle.summary_spec.specs.Job.{declared_of};
ghost use Rattle.summary_spec.specs.Reads.{declaration, json, most_bytes, reads};

use crate::job::Job;
use job_table::{
    CaptureLists, captures, filter, key, profile, query, skew, skews, vars, version, vxlan_port,
    window,
};
use job_values::{JobWhat, Member, ReadJobFault, fault_at, no_stray, object};
use query_lang::Names;
use serde_json::Value;
use std::alloc::Global;

/// The most bytes that a declaration has.
const MOST_BYTES: usize = 1_048_576;

impl Job {
    #[tactic(auto, unfolding(crate::specs::Reads::reads))]
    /// Reads a declaration, which is JSON of at most 1,048,576 bytes. `Bad` is its first fault, with
    /// the member where it is.
    pub fn read(alloc: Global, bytes: &[u8]) -> Result<Job, ReadJobFault>
        ensures { Answers declared_of (reads bytes.now) result }
    {
        if bytes.len() > MOST_BYTES {
            let value = MOST_BYTES as u128 + 1;
            return Err(ReadJobFault::Bad(fault_at(Member::Whole, 0, JobWhat::Limit { value })));
        }
        let value = value_of(alloc, bytes)?;
        declaration(alloc, &value)
    }
}

// The value of JSON that the bytes are.
fn value_of(alloc: Global, bytes: &[u8]) -> Result<Value, ReadJobFault>
    ensures { Answers view (or_fault member.Whole 0 what.NotJson (json bytes.now)) result }
{
    match Value::from_slice(alloc, bytes) {
        Ok(value) => Ok(value),
        Err(e) => {
            if e.is_memory() {
                return Err(ReadJobFault::OutOfMemory);
            }
            Err(ReadJobFault::Bad(fault_at(Member::Whole, 0, JobWhat::NotJson)))
        }
    }
}

// The job of a declaration.
fn declaration(alloc: Global, value: &Value) -> Result<Job, ReadJobFault>
    ensures { Answers declared_of (declaration (view value.now)) result }
{
    let members = object(value, Member::Whole, 0)?;
    no_stray(
        members,
        &[
            "version",
            "vxlan_port",
            "captures",
            "vars",
            "filter",
            "key",
            "window",
            "skew",
            "profile",
            "query",
        ],
        Member::Whole,
        0,
    )?;
    let version = version(value)?;
    let port = vxlan_port(value)?;
    let CaptureLists {
        names: captures,
        files,
        offsets,
        own_skews,
        interfaces,
    } = captures(alloc, value, version)?;
    let (vars, takes) = vars(alloc, value)?;
    let names = Names { vars, captures };
    let (filter_text, filter) = filter(alloc, value, &names)?;
    let key = key(alloc, value, &names.vars)?;
    let window = window(value)?;
    let skew = skew(value)?;
    let profile = profile(value)?;
    let query = query(alloc, value, &names)?;
    let skews = skews(alloc, &own_skews, skew)?;
    Ok(Job {
        version,
        port,
        names,
        files,
        offsets,
        skews,
        interfaces,
        takes,
        filter_text,
        filter,
        key,
        window,
        skew,
        profile,
        query,
    })
}
