//! The whole report of a job: the accepted summaries of its captures in the order of their stamps, the
//! groups of these, the answer to each group, the delays where the job asks for them, and the counts of
//! each capture.
#![tactic(auto)]

mod central;
mod closing;
mod laws;
#[cfg(test)]
mod tests;
mod written;

pub use central::central_text;
pub use laws::{accepted_is_all, accepted_reportable, rows_are_profile};
