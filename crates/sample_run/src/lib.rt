//! The sample of a number, run: its captures are made in memory, a pipeline makes the report of their job, and one line
//! says the totals and the hash of that report. One number gives one line, whatever the shape of the pipeline is and
//! whatever turns are chosen.
#![tactic(auto)]

mod line;
mod sample;
mod sources;
mod totals;

pub use sample::{Sampled, run_sample};
