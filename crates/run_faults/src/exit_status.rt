//! The exit status of a run.

ghost use Rattle.std.specs.Prelude.{◌≡◌};
ghost use Rattle.run_faults.specs.Status.{status_of};

use crate::fault::RunFault;

/// The exit status of a run by its fault, and 0 where it ended Ok.
pub fn status(fault: &Option<RunFault>) -> u8
    ensures { result ≡ status_of fault.now }
{
    match fault {
        None => 0,
        Some(RunFault::Usage { .. }) => 1,
        Some(RunFault::BadJob(_)) => 1,
        Some(RunFault::Malformed { .. }) => 2,
        Some(RunFault::ReadFault { .. }) => 3,
        Some(RunFault::WriteFault) => 4,
        Some(RunFault::OutOfMemory) => 6,
    }
}
