//! The report of a job over the captures of a folder, written as it comes: all captures are opened, in order, a pipeline
//! reads them side by side and writes each answer as soon as it is known, and all are given back.
#![tactic(auto)]

mod giving;
mod opening;
mod streaming;

pub use streaming::{Streamed, stream_report};
