//! Why a job was not read from its file, and why its captures were not all gathered.

ghost use Rattle.std.specs.Prelude.{◌≡◌};
ghost use Rattle.job_inputs.specs.Faults.{fault_at_opening, fault_at_reading};

use ds_base::PcapFault;
use input_files::{CaptureFault, FileFault};
use job_values::JobFault;
use thiserror::Error;

/// Why a job was not read from its file.
#[derive(Clone, Copy, Debug, PartialEq, Eq, Error)]
pub enum JobFileFault {
    /// The file was read and is refused: its first fault.
    #[error("the job is refused: {0:?}")]
    Bad(JobFault),
    /// The file is not there, or could not be opened or read.
    #[error("the file could not be read")]
    Unread,
    /// There was no memory.
    #[error("out of memory")]
    OutOfMemory,
}

impl From<FileFault> for JobFileFault {
    ghost use Rattle.job_inputs.specs.JobFile.{IsOfFile};

    ghost from_gives = { λ fault e. IsOfFile fault e };

    fn from(fault: FileFault) -> JobFileFault {
        match fault {
            FileFault::Unread => JobFileFault::Unread,
            FileFault::OutOfMemory => JobFileFault::OutOfMemory,
        }
    }
}

/// Why the captures of a job were not all gathered. Captures are counted from 0.
#[derive(Clone, Copy, Debug, PartialEq, Eq, Error)]
pub enum CapturesFault {
    /// This is the first malformed capture: its first malformed place, and what is wrong there.
    #[error("capture {capture} is malformed at byte {at}: {what:?}")]
    Malformed {
        capture: u32,
        at: u64,
        what: PcapFault,
    },
    /// The file of this capture is not there, or could not be opened or read.
    #[error("the file of capture {capture} could not be read")]
    Unread {
        capture: u32,
    },
    /// There was no memory.
    #[error("out of memory")]
    OutOfMemory,
}

impl CapturesFault {
    /// The fault of a capture whose file was not opened.
    pub(crate) fn at_opening(capture: u32, fault: FileFault) -> Self
        ensures { result ≡ fault_at_opening capture fault }
    {
        match fault {
            FileFault::Unread => CapturesFault::Unread { capture },
            FileFault::OutOfMemory => CapturesFault::OutOfMemory,
        }
    }

    /// The fault of a capture that was not read to its end.
    pub(crate) fn at_reading(capture: u32, fault: CaptureFault) -> Self
        ensures { result ≡ fault_at_reading capture fault }
    {
        match fault {
            CaptureFault::Malformed { at, what } => CapturesFault::Malformed { capture, at, what },
            CaptureFault::Unread => CapturesFault::Unread { capture },
            CaptureFault::OutOfMemory => CapturesFault::OutOfMemory,
        }
    }
}

/// Why the report of a job was not written.
#[derive(Clone, Copy, Debug, PartialEq, Eq, Error)]
pub enum ReportFault {
    /// The captures were not all read, or there was no memory for the report.
    #[error("{0}")]
    Captures(CapturesFault),
    /// The output could not be written.
    #[error("the report could not be written")]
    Unwritten,
}
