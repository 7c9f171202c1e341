//! What a turn of a node answers.
use crate::LinkBad;
use ds_base::Bad;

/// What a node did in a turn.
#[derive(Clone, Copy, Debug, PartialEq, Eq)]
pub enum Turn {
    /// A byte moved, or a record or a frame was taken up.
    Moved,
    /// Nothing moved, and the node waits.
    Idle,
    /// Nothing moved, and the node has nothing more to do.
    Done,
}

/// Why a node goes no further.
#[derive(Clone, Copy, Debug, PartialEq, Eq)]
pub enum NodeFault {
    /// A capture is malformed.
    Malformed { capture: u32, bad: Bad },
    /// A capture could not be read.
    Read { capture: u32 },
    /// The output could not be written.
    Write,
    /// A link goes no further. A node counts its links in first, from 0, and its links out behind them.
    Link { link: u32, bad: LinkBad },
    /// There was no memory.
    OutOfMemory,
}
