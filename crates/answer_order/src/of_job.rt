//! What a frame says of a job: its captures, its key and its profile.
ghost use Rattle.std.specs.Prelude.{◌≡◌, ◌<◌, ◌≤◌, ◌*◌, ◌^◌, ◌↔◌, IsTrue, length, sum};
ghost use Rattle.answer_text.specs.Lines.{IsNamedIn};
ghost use Rattle.ds_base.specs.Times.{hour};
ghost use Rattle.summary_spec.specs.Job.{declared_of};
ghost use Rattle.run_law.specs.Links.{IsStampOf, IsAnswerOf, IsRowOf};

use crate::numbers::{is_sum_of, is_sum_within, is_time};
use ds_base::{Answer, HOUR, ProfileRow, Stamp, Verdict};
use summary_spec::Job;

/// How many captures the job has.
fn capture_count(job: &Job) -> u32
    ensures { result ≡ length (declared_of job.now).captures }
{
    job.offsets.len() as u32
}

/// How many variables the job's key has.
fn key_count(job: &Job) -> u32
    ensures { result ≡ length (declared_of job.now).key }
{
    job.key.len() as u32
}

/// Whether a record of the job can have this stamp.
fn is_stamp_of(job: &Job, at: &Stamp) -> bool
    ensures { IsTrue result ↔ IsStampOf (declared_of job.now) at.now }
{
    is_time(at.time) && at.capture < capture_count(job) && at.number >> 40 == 0
}

/// Whether each capture that the verdict names is one of so many.
fn is_named_in(captures: u32, verdict: &Verdict) -> bool
    ensures { IsTrue result ↔ IsNamedIn captures verdict.now }
{
    match verdict {
        Verdict::Loop { capture, .. } => *capture < captures,
        Verdict::Dropped { capture } => *capture < captures,
        _ => true,
    }
}

/// Whether this can be the answer for a group of the job.
pub(crate) fn is_answer_of(job: &Job, answer: &Answer) -> bool
    ensures { IsTrue result ↔ IsAnswerOf (declared_of job.now) answer.now }
{
    is_stamp_of(job, &answer.first)
        && answer.key.len() == key_count(job)
        && answer.members >= 1
        && is_named_in(capture_count(job), &answer.verdict)
}

/// Whether both captures of the row are among the job's.
fn is_between(job: &Job, row: &ProfileRow) -> bool
    ensures { IsTrue result ↔ ((row.now.from < length (declared_of job.now).captures) × (row.now.to < length (declared_of job.now).captures)) }
{
    row.from < capture_count(job) && row.to < capture_count(job)
}

/// Whether the row has a number of delays in range, and its classes have as many.
fn is_counted(row: &ProfileRow) -> bool
    ensures { IsTrue result ↔ ((1 ≤ row.now.count) × (row.now.count ≤ 2 ^ 50) × (row.now.count ≡ sum row.now.classes)) }
{
    row.count >= 1 && row.count <= 1 << 50 && is_sum_of(row.count, &row.classes)
}

/// Whether as many delays can have the row's least, its greatest and its sum.
fn are_times(row: &ProfileRow) -> bool
    ensures { IsTrue result ↔ ((row.now.least ≤ row.now.greatest) × (row.now.greatest ≤ hour) × (row.now.sum ≤ row.now.count * row.now.greatest)) }
{
    row.least <= row.greatest
        && row.greatest <= HOUR
        && is_sum_within(row.sum, row.count, row.greatest)
}

/// Whether this can be a row of the job's profile.
pub(crate) fn is_row_of(job: &Job, row: &ProfileRow) -> bool
    ensures { IsTrue result ↔ IsRowOf (declared_of job.now) row.now }
{
    job.profile && is_between(job, row) && is_counted(row) && are_times(row)
}
