//! The canonical values of a job's parts, as JSON: its lists and its query. Each part, as it is
//! printed, is read by its row of the table as the same (proofs/QueryAgain and its kin).
//! The crate above puts the values together to the text of a job.
#![tactic(auto)]

mod lists;
mod query;

pub use lists::{captures_value, key_value, vars_value};
pub use query::question_value;
