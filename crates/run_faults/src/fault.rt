//! Why a run did not end Ok.

ghost use Rattle.std.specs.Prelude.{◌≡◌, codes};

use crate::capture_name::CaptureName;
use ds_base::PcapFault;
use job_values::JobFault;
use thiserror::Error;

/// Why a run did not end Ok. Its line on the standard error is written by `complain`.
#[derive(Clone, Copy, Debug, PartialEq, Eq, Error)]
pub enum RunFault {
    /// The words are not accepted; `place` is the number of the first word that cannot stand, or the
    /// number of words.
    #[error("word {place} is refused")]
    Usage {
        place: u32,
    },
    /// The job was read and is refused: its first fault.
    #[error("the job is refused: {0}")]
    BadJob(JobFault),
    /// This capture is malformed: its first malformed place, and what is wrong there.
    #[error("capture {capture} is malformed at byte {at}: {what}")]
    Malformed {
        capture: u32,
        at: u64,
        what: PcapFault,
    },
    /// A file could not be opened or read.
    #[error("file {file} could not be read")]
    ReadFault {
        file: u32,
    },
    /// The output could not be written.
    #[error("the output could not be written")]
    WriteFault,
    /// There was no memory.
    #[error("out of memory")]
    OutOfMemory,
}

/// How a run stopped.
#[derive(Drop)]
pub struct Stop {
    /// Why it did not end Ok.
    pub fault: RunFault,
    /// The name of the capture, where one is malformed.
    pub name: CaptureName,
}

impl Stop {
    /// The stop by a fault of a command that has no job. Its capture is named `c`.
    pub fn unnamed(fault: RunFault) -> Self
        ensures fault { result.fault ≡ fault }
        ensures name { result.name ≡ codes "c" }
    {
        Stop {
            fault,
            name: CaptureName::new(b"c"),
        }
    }
}
