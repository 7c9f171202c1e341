//! The real ends: files by name, the standard output and the standard error. They tell nothing of what
//! they hold, so that nothing is proved of it; they count their failures, and turn a write of no byte
//! into one. They are trusted to be like the ends in memory of ds_base, which tell.
#![tactic(auto)]

mod files;
mod streams;

pub use files::{FileFolder, FileSource};
pub use streams::StreamSink;
