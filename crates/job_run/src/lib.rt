//! A job over the sources of its captures and a sink, by a pipeline: opened, run to its end in the thread of its caller,
//! and closed. What it says is in terms of the sources, the sink and the rows of the links; no caller needs to know of
//! nodes.
#![tactic(auto)]

mod run;

pub use run::{Ran, run_job};
