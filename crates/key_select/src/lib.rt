//! From a record of a capture to its summary, by what a job declares: its adjusted time, the values of
//! its variables, its key, the filter; whether it comes too late; how the records of a capture fared; and the
//! number of the shard that a key belongs to. `wanted_of` says which packets of a file are the records of a capture.
#![tactic(auto)]

// One record, or one key.
mod hash;
mod late;
mod summary;
mod time;
mod values;
mod wanted;

// The records of one capture.
mod laws;
mod tally;
#[cfg(test)]
mod tests;

pub use hash::shard;
pub use late::is_late;
pub use laws::{accepted_in_parts, later_from_mark};
pub use summary::select;
pub use tally::Tally;
pub use time::adjusted;
pub use wanted::wanted_of;
