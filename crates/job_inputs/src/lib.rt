//! What a job opens: its own file, of which no more is read than a job may have, and its captures, which
//! are all opened before one is read. Of each capture it gathers the accepted summaries and how all its
//! records fared; the first capture that is malformed or was not read is named.
#![tactic(auto)]

mod captures;
mod fault;
mod gather;
mod job_file;
mod packing;

pub use captures::{Gathered, gather_captures, give_back_all, open_captures};
pub use fault::{CapturesFault, JobFileFault, ReportFault};
pub use job_file::{read_job, take_job};
