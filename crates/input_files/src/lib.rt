//! What a command opens and how a capture is read: the opening of a file of a folder, and the reading of
//! a capture piece by piece, which ties its source, the bytes read so far and the records given so far to
//! one another. Commands loop over it, and a node may call it some times a turn.
#![tactic(auto)]

mod fault;
mod opening;
mod reading;

pub use fault::{CaptureFault, FileFault};
pub use opening::open_file;
pub use reading::{CaptureReading, Piece};
