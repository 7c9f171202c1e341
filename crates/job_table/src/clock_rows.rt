//! The rows of a capture's clock: its offset and its skew.

ghost use Rattle.std.specs.Prelude.{◌≡◌, ◌≤◌, ◌<◌, ◌+◌, ◌∷◌, length, drop, IfOk, IfSome, unsigned_abs};
ghost use Rattle.serde_json.specs.View.{view};
ghost use Rattle.job_table.specs.Limits.{longest};
ghost use Rattle.job_table.specs.Table.{offset_value, capture_offset, skew_value, capture_skew, skews_or};

use crate::capture_lists::{OwnSkewList, SkewList};
use crate::rules::{in_limits, put};
use ds_base::{HOUR, OutOfMemory};
use job_values::{JobFault, Member, number, signed_number};
use serde_json::Value;
use std::alloc::Global;

/// What is added to the times of a capture, in nanoseconds; 0 where none is given.
pub(crate) fn capture_offset(value: &Value, index: u32) -> Result<i64, JobFault>
    ensures answer { result ≡ capture_offset index (view value.now) }
    ensures most { IfOk result (λ offset. unsigned_abs offset ≤ longest) }
{
    match value.get("offset") {
        Some(found) => offset_value(found, index),
        None => Ok(0),
    }
}

fn offset_value(value: &Value, index: u32) -> Result<i64, JobFault>
    ensures answer { result ≡ offset_value index (view value.now) }
    ensures most { IfOk result (λ offset. unsigned_abs offset ≤ longest) }
{
    let offset = signed_number(value, Member::CapturesOffset, index)?;
    in_limits(
        offset.unsigned_abs(),
        0,
        HOUR,
        Member::CapturesOffset,
        index,
    )?;
    Ok(offset)
}

/// The skew that a capture has of its own, in nanoseconds.
pub(crate) fn capture_skew(value: &Value, index: u32) -> Result<Option<u64>, JobFault>
    ensures answer { result ≡ capture_skew index (view value.now) }
    ensures most { IfOk result (λ own. IfSome own (λ skew. skew ≤ longest)) }
{
    match value.get("skew") {
        Some(found) => skew_value(found, index),
        None => Ok(None),
    }
}

fn skew_value(value: &Value, index: u32) -> Result<Option<u64>, JobFault>
    ensures answer { result ≡ skew_value index (view value.now) }
    ensures most { IfOk result (λ own. IfSome own (λ skew. skew ≤ longest)) }
{
    let skew = number(value, Member::CapturesSkew, index)?;
    in_limits(skew, 0, HOUR, Member::CapturesSkew, index)?;
    Ok(Some(skew))
}

/// The skew of each capture: its own, or that of the job.
pub fn skews(alloc: Global, own_skews: &OwnSkewList, skew: u64) -> Result<SkewList, OutOfMemory>
    ensures { IfOk result (λ list. list.items ≡ skews_or skew own_skews.now.items) }
{
    let mut list = SkewList::new(alloc);
    for i in 0..own_skews.len() {
        put(&mut list, nth_or(own_skews, i, skew))?;
    }
    Ok(list)
}

// The skew of capture number `i`.
#[tactic(auto, using(ds_base::proofs::Places::drop_at))]
fn nth_or(own_skews: &OwnSkewList, i: u64, skew: u64) -> u64
    requires { i < length own_skews.now.items }
    ensures { skews_or skew (drop i own_skews.now.items) ≡ result ∷ skews_or skew (drop (i + 1) own_skews.now.items) }
{
    own_skews.get(i).unwrap_or(skew)
}
