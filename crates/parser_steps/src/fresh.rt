//! The captures of a parser before its first step.
ghost use Rattle.std.specs.Prelude.{◌≡◌, ◌<◌, ◌≤◌, ◌+◌, ◌*◌, ℕ, IfOk, length};
ghost use Rattle.summary_spec.specs.Job.{declared_of};
ghost use Rattle.parser_captures.specs.declared.capture.OneCapture.{OneCapture as CaptureSeen};
ghost use Rattle.parser_captures.specs.Choice.{capture_in};
ghost use Rattle.parser_steps.specs.One.{IsUnread, IsFreshCapture};

use ds_base::OutOfMemory;
use parser_captures::OneCapture;
use std::alloc::Global;
use summary_spec::Job;

/// The captures of the parser of this number among so many, of which nothing was read.
pub(crate) fn new_captures(
    alloc: Global,
    job: &Job,
    me: u32,
    parsers: u32,
    count: u64,
) -> Result<Vec<OneCapture>, OutOfMemory>
    requires few { (parsers ≤ 16) × (count ≤ 64) × (length job.now.names.captures.items ≤ 64) }
    requires own { (i : ℕ) → i < count → me + i * parsers < length job.now.names.captures.items }
    ensures count { IfOk result (λ captures. length captures.items ≡ count) }
    ensures fresh { IfOk result (λ captures. (i : ℕ) (d : CaptureSeen) → i < count → IsFreshCapture (declared_of job.now) (me + i * parsers) (capture_in captures.items i d)) }
{
    let Ok(mut captures) = Vec::with_capacity(alloc, count as usize) else {
        return Err(OutOfMemory);
    };
    'captures: for i in 0..count {
        captures.push_reserved(new_capture(alloc, job, me + i as u32 * parsers)?);
    }
    Ok(captures)
}

// One capture, of which nothing was read.
fn new_capture(alloc: Global, job: &Job, capture: u32) -> Result<OneCapture, OutOfMemory>
    requires { capture < length job.now.names.captures.items }
    ensures { IfOk result (λ new. IsFreshCapture (declared_of job.now) capture new) }
{
    let new = OneCapture::new(alloc, job, capture)?;
    // It holds nothing, since nothing was read; here the number tells it.
    if new.reading.held() > 0 {
        return Err(OutOfMemory);
    }
    Ok(new)
}
