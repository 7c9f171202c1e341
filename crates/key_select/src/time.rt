//! The clocks of captures: the one place where the time of a record is adjusted.
ghost use Rattle.std.specs.Prelude.{◌≡◌, ◌+◌, ◌≤◌, ◌<◌, ◌^◌, length, unsigned_abs};
ghost use Rattle.ds_base.specs.Times.{hour};
ghost use Rattle.summary_spec.specs.Job.{declared_of};
ghost use Rattle.key_select.specs.Times.{adjusted, capture_offset, capture_skew, moved};

use summary_spec::Job;

/// A time of this capture of the job, adjusted: plus the capture's offset, or 0 where that sum is
/// negative. All are in nanoseconds. It takes no memory.
pub fn adjusted(job: &Job, capture: u32, time: u64) -> u64
    requires capture { capture < length job.now.names.captures.items }
    requires time { time + hour < 2 ^ 63 }
    ensures value { result ≡ adjusted (declared_of job.now) capture time }
    ensures early { result < 2 ^ 63 }
{
    moved(offset_of(job, capture), time)
}

/// A time plus an offset, or 0 where that sum is negative.
pub(crate) fn moved(offset: i64, time: u64) -> u64
    requires offset { unsigned_abs offset ≤ hour }
    requires time { time + hour < 2 ^ 63 }
    ensures value { result ≡ moved offset time }
    ensures early { result < 2 ^ 63 }
{
    if offset < 0 {
        time.saturating_sub(offset.unsigned_abs())
    } else {
        time + offset.unsigned_abs()
    }
}

/// The offset of a capture.
pub(crate) fn offset_of(job: &Job, capture: u32) -> i64
    requires { capture < length job.now.names.captures.items }
    ensures value { result ≡ capture_offset (declared_of job.now) capture }
    ensures most { unsigned_abs result ≤ hour }
{
    *job.offsets.get(u64::from(capture))
}

/// The skew of a capture: its own where it has one, or that of the job.
pub(crate) fn skew_of(job: &Job, capture: u32) -> u64
    requires { capture < length job.now.names.captures.items }
    ensures value { result ≡ capture_skew (declared_of job.now) capture }
    ensures most { result ≤ hour }
{
    *job.skews.get(u64::from(capture))
}
