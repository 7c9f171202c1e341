//! Why a file was not opened or read, and why a capture was not.

use ds_base::{Bad, OutOfMemory, PcapFault};
use thiserror::Error;

/// Why a file was not opened or read.
#[derive(Clone, Copy, Debug, PartialEq, Eq, Error)]
pub enum FileFault {
    /// It is not there, or could not be opened or read.
    #[error("the file could not be read")]
    Unread,
    /// There was no memory.
    #[error("out of memory")]
    OutOfMemory,
}

impl From<OutOfMemory> for FileFault {
    ghost use Rattle.std.specs.Prelude.{◌≡◌};
    ghost use Rattle.input_files.specs.declared.fault.FileFault.TheVariants as answer;

    ghost from_gives = { λ _ e. e ≡ answer.OutOfMemory };

    fn from(_: OutOfMemory) -> FileFault {
        FileFault::OutOfMemory
    }
}

/// Why a capture was not read to its end.
#[derive(Clone, Copy, Debug, PartialEq, Eq, Error)]
pub enum CaptureFault {
    /// Its first malformed place: a byte's number from 0, and what is wrong there.
    #[error("malformed at byte {at}: {what:?}")]
    Malformed { at: u64, what: PcapFault },
    /// Its file is not there, or could not be opened or read.
    #[error("the file could not be read")]
    Unread,
    /// There was no memory.
    #[error("out of memory")]
    OutOfMemory,
}

impl From<Bad> for CaptureFault {
    ghost use Rattle.std.specs.Prelude.{◌≡◌};
    ghost use Rattle.input_files.specs.declared.fault.CaptureFault.TheVariants as answer;

    ghost from_gives = { λ bad e. e ≡ answer.Malformed bad.at bad.what };

    fn from(bad: Bad) -> CaptureFault {
        CaptureFault::Malformed {
            at: bad.at,
            what: bad.what,
        }
    }
}

impl From<FileFault> for CaptureFault {
    ghost use Rattle.input_files.specs.Faults.{IsOfFile};

    ghost from_gives = { λ fault e. IsOfFile fault e };

    fn from(fault: FileFault) -> CaptureFault {
        match fault {
            FileFault::Unread => CaptureFault::Unread,
            FileFault::OutOfMemory => CaptureFault::OutOfMemory,
        }
    }
}

impl From<OutOfMemory> for CaptureFault {
    ghost use Rattle.std.specs.Prelude.{◌≡◌};
    ghost use Rattle.input_files.specs.declared.fault.CaptureFault.TheVariants as answer;

    ghost from_gives = { λ _ e. e ≡ answer.OutOfMemory };

    fn from(_: OutOfMemory) -> CaptureFault {
        CaptureFault::OutOfMemory
    }
}
