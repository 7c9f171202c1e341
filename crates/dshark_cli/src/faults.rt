//! The fault of a run for a fault of its job's file.

ghost use Rattle.std.specs.Prelude.{◌≡◌};
ghost use Rattle.dshark_cli.specs.Faults.{of_job};

use job_inputs::JobFileFault;
use run_faults::RunFault;

/// The job's file has number 0.
pub fn of_job(fault: JobFileFault) -> RunFault
    ensures { result ≡ of_job fault }
{
    match fault {
        JobFileFault::Bad(fault) => RunFault::BadJob(fault),
        JobFileFault::Unread => RunFault::ReadFault { file: 0 },
        JobFileFault::OutOfMemory => RunFault::OutOfMemory,
    }
}
