//! From a record to its summary.
ghost use Rattle.std.specs.Prelude.{◌≡◌, ◌+◌, ◌≤◌, ◌<◌, ◌^◌, length};
ghost use Rattle.ds_base.specs.Times.{hour};
ghost use Rattle.pcap_reader.specs.Lent.{captured};
ghost use Rattle.query_lang.specs.Expression.{expression_of, VariablesBelow};
ghost use Rattle.summary_spec.specs.Job.{declared_of};
ghost use Rattle.key_select.specs.Sum.{sum_of, sum_at, passes};

use crate::time::adjusted;
use crate::values::{put_key, put_values};
use ds_base::{Nums, Stamp, Summary};
use header_stack::walk;
use pcap_reader::RecordRef;
use query_lang::eval_one;
use summary_spec::Job;

/// The summary of a record of this capture of the job, at its adjusted time. Every variable takes the first of its
/// alternatives that the packet has. `None` exactly where a variable has none, or where the filter is
/// undefined or 0. It walks the headers once, and takes no memory.
pub fn select(job: &Job, capture: u32, r: &RecordRef<'_>) -> Option<Summary>
    requires capture { capture < length job.now.names.captures.items }
    requires time { r.now.time + hour < 2 ^ 63 }
    requires bytes { length r.now.bytes.now ≤ 262144 }
    ensures { result ≡ sum_of (declared_of job.now) capture (captured r.now) }
{
    select_at(job, capture, adjusted(job, capture, r.time), r)
}

/// The same, where the time of the record was adjusted already.
pub(crate) fn select_at(job: &Job, capture: u32, time: u64, r: &RecordRef<'_>) -> Option<Summary>
    requires capture { capture < length job.now.names.captures.items }
    requires time { time < 2 ^ 63 }
    requires bytes { length r.now.bytes.now ≤ 262144 }
    ensures { result ≡ sum_at (declared_of job.now) capture time (captured r.now) }
{
    let stack = walk(r.link, r.bytes, job.port);
    let mut summary = Summary {
        at: Stamp {
            time,
            capture,
            number: r.number,
        },
        key: Nums::new(),
        vals: Nums::new(),
    };
    if !put_values(&mut summary.vals, &job.takes, &stack, r.bytes) {
        return None;
    }
    put_key(&mut summary.key, &job.key, &summary.vals);
    if is_wanted(job, &summary) {
        Some(summary)
    } else {
        None
    }
}

/// Whether the filter is defined and other than 0.
fn is_wanted(job: &Job, summary: &Summary) -> bool
    requires { VariablesBelow (length summary.now.vals) (expression_of job.now.filter) }
    ensures { result ≡ passes (declared_of job.now) summary.now }
{
    match eval_one(&job.filter, summary) {
        Some(n) => n != 0,
        None => false,
    }
}
