//! Which packets of a file are the records of a capture.
ghost use Rattle.std.specs.Prelude.{◌≡◌, ◌<◌, length};
ghost use Rattle.summary_spec.specs.Job.{declared_of};
ghost use Rattle.key_select.specs.Wanted.{wanted_of};

use summary_spec::Job;

/// The interface whose packets are the records of this capture of the job. None: those of all interfaces.
pub fn wanted_of(job: &Job, capture: u32) -> Option<u32>
    requires { capture < length job.now.names.captures.items }
    ensures { result ≡ wanted_of (declared_of job.now) capture }
{
    *job.interfaces.get(u64::from(capture))
}
