//! The captures of a parser, of which each step takes up one record, reads one piece or
//! finishes; the choice of the capture that is taken next; and the frames that a record is due.
#![tactic(auto)]

mod capture;
mod choice;
mod laws;
mod putting;

pub use capture::{CaptureStop, OneCapture, Step};
pub use choice::choose;
pub use laws::going_keeps;
pub use putting::{put_found, put_to_groupers};
