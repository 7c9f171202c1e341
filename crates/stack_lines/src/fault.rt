//! Why the lines of a capture were not all written.

use ds_base::{Bad, OutOfMemory};
use input_files::{CaptureFault, FileFault};
use thiserror::Error;

/// Why the lines of a capture were not all written.
#[derive(Clone, Copy, Debug, PartialEq, Eq, Error)]
pub enum StackFault {
    /// The capture was not read to its end, or there was no memory for its lines.
    #[error("the capture: {0}")]
    Capture(CaptureFault),
    /// The output could not be written.
    #[error("the output could not be written")]
    Unwritten,
}

/// Why a line was not printed.
#[derive(Clone, Copy, Debug, PartialEq, Eq, Error)]
pub(crate) enum PrintFault {
    /// The output could not be written.
    #[error("the output could not be written")]
    Unwritten,
    /// There was no memory.
    #[error("out of memory")]
    OutOfMemory,
}

impl From<Bad> for StackFault {
    ghost use Rattle.std.specs.Prelude.{◌≡◌};
    ghost use Rattle.input_files.specs.declared.fault.CaptureFault.TheVariants as capture;
    ghost use Rattle.stack_lines.specs.declared.fault.StackFault.TheVariants as answer;

    ghost from_gives = { λ bad e. e ≡ answer.Capture (capture.Malformed bad.at bad.what) };

    fn from(bad: Bad) -> StackFault {
        StackFault::Capture(CaptureFault::Malformed {
            at: bad.at,
            what: bad.what,
        })
    }
}

impl From<FileFault> for StackFault {
    ghost use Rattle.stack_lines.specs.Faults.{IsOfFile};

    ghost from_gives = { λ fault e. IsOfFile fault e };

    fn from(fault: FileFault) -> StackFault {
        match fault {
            FileFault::Unread => StackFault::Capture(CaptureFault::Unread),
            FileFault::OutOfMemory => StackFault::Capture(CaptureFault::OutOfMemory),
        }
    }
}

impl From<OutOfMemory> for StackFault {
    ghost use Rattle.std.specs.Prelude.{◌≡◌};
    ghost use Rattle.input_files.specs.declared.fault.CaptureFault.TheVariants as capture;
    ghost use Rattle.stack_lines.specs.declared.fault.StackFault.TheVariants as answer;

    ghost from_gives = { λ _ e. e ≡ answer.Capture capture.OutOfMemory };

    fn from(_: OutOfMemory) -> StackFault {
        StackFault::Capture(CaptureFault::OutOfMemory)
    }
}

impl From<PrintFault> for StackFault {
    ghost use Rattle.stack_lines.specs.Faults.{IsOfPrint};

    ghost from_gives = { λ fault e. IsOfPrint fault e };

    fn from(fault: PrintFault) -> StackFault {
        match fault {
            PrintFault::Unwritten => StackFault::Unwritten,
            PrintFault::OutOfMemory => StackFault::Capture(CaptureFault::OutOfMemory),
        }
    }
}
