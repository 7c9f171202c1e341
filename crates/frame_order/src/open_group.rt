//! The group that was begun last, as far as its next member is told by it.
ghost use Rattle.std.specs.Prelude.{◌≡◌, ◌≤◌, ◌+◌, ◌↔◌, IsTrue, length};
ghost use Rattle.ds_base.specs.Order.{Precedes};
ghost use Rattle.summary_spec.specs.Job.{declared_of};
ghost use Rattle.frame_order.specs.Groups.{IsNext, Joins};

use crate::of_job::{is_key_of, is_stamp_of, variable_count};
use ds_base::{Nums, Stamp};
use summary_spec::Job;

/// What is kept of the group that was begun last.
#[derive(Drop)]
pub(crate) struct OpenGroup {
    /// Its head's stamp.
    pub(crate) first: Stamp,
    /// Its key.
    pub(crate) key: Nums,
    /// The stamp of its last member that came.
    pub(crate) last: Stamp,
    /// Whether no member of it came.
    pub(crate) fresh: bool,
    /// How many members are still to come; 0 where no group is begun.
    pub(crate) left: u64,
}

/// Whether a is before b.
pub(crate) fn precedes(a: &Stamp, b: &Stamp) -> bool
    ensures { IsTrue result ↔ Precedes a.now b.now }
{
    a < b
}

/// Whether the next member may have this stamp, as far as its order tells.
fn is_next(group: &OpenGroup, at: &Stamp) -> bool
    ensures { IsTrue result ↔ IsNext group.now at.now }
{
    if group.fresh {
        *at == group.first
    } else {
        precedes(&group.last, at)
    }
}

/// Whether the time is within the window of the group's first.
fn is_within(job: &Job, group: &OpenGroup, at: &Stamp) -> bool
    ensures { IsTrue result ↔ (at.now.time ≤ group.now.first.time + (declared_of job.now).window) }
{
    at.time.saturating_sub(group.first.time) <= job.window
}

/// Whether this can be the group's next member.
pub(crate) fn may_join(job: &Job, group: &OpenGroup, at: &Stamp, vals: &Nums) -> bool
    ensures { IsTrue result ↔ Joins (declared_of job.now) group.now at.now vals.now }
{
    group.left > 0
        && is_stamp_of(job, at)
        && is_next(group, at)
        && is_within(job, group, at)
        && vals.len() == variable_count(job)
        && is_key_of(job, &group.key, vals)
}
