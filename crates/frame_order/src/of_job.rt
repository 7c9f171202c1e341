//! What a frame says of a job: its captures, its variables and its key.
ghost use Rattle.std.specs.Prelude.{◌≡◌, ◌<◌, ◌≤◌, ◌%◌, ◌↔◌, IsTrue, length};
ghost use Rattle.ds_base.specs.Keys.{key_of};
ghost use Rattle.summary_spec.specs.Job.{declared_of};
ghost use Rattle.run_law.specs.Links.{IsTime, IsStampOf};
ghost use Rattle.frame_order.specs.Agreeing.{AgreesAt};

use crate::numbers::is_time;
use ds_base::{Nums, Stamp};
use summary_spec::Job;

/// How many captures the job has.
pub(crate) fn capture_count(job: &Job) -> u32
    ensures count { result ≡ length (declared_of job.now).captures }
    ensures few { result ≤ 64 }
{
    job.offsets.len() as u32
}

/// How many variables the job has.
pub(crate) fn variable_count(job: &Job) -> u32
    ensures { result ≡ length (declared_of job.now).vars }
{
    job.names.vars.len() as u32
}

/// How many variables the job's key has.
pub(crate) fn key_count(job: &Job) -> u32
    ensures { result ≡ length (declared_of job.now).key }
{
    job.key.len() as u32
}

/// Whether a record of the job can have this stamp.
pub(crate) fn is_stamp_of(job: &Job, at: &Stamp) -> bool
    ensures { IsTrue result ↔ IsStampOf (declared_of job.now) at.now }
{
    is_time(at.time) && at.capture < capture_count(job) && at.number >> 40 == 0
}

/// Whether the capture is one of the job's and of this parser among so many.
pub(crate) fn is_capture_of(job: &Job, parsers: u32, parser: u32, c: u32) -> bool
    requires { 0 < parsers }
    ensures exact { IsTrue result ↔ ((c < length (declared_of job.now).captures) × (c % parsers ≡ parser)) }
    ensures few { IsTrue result → c < 64 }
{
    c < capture_count(job) && c % parsers == parser
}

/// Whether the key is that of the values.
pub(crate) fn is_key_of(job: &Job, key: &Nums, vals: &Nums) -> bool
    requires { length vals.now ≡ length (declared_of job.now).vars }
    ensures { IsTrue result ↔ (key.now ≡ key_of (declared_of job.now).key vals.now) }
{
    if key.len() != key_count(job) {
        return false;
    }
    for i in 0..key.len() {
        if !agrees(job, key, i, vals) {
            return false;
        }
    }
    true
}

/// Whether number `i` of the key is the value of its variable.
fn agrees(job: &Job, key: &Nums, i: u32, vals: &Nums) -> bool
    requires values { length vals.now ≡ length (declared_of job.now).vars }
    requires within { i < length key.now }
    requires numbers { length key.now ≡ length (declared_of job.now).key }
    ensures { IsTrue result ↔ AgreesAt i key.now (key_of (declared_of job.now).key vals.now) }
{
    key.get(i) == vals.get(*job.key.get(u64::from(i)))
}
