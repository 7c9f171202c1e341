//! The faults of a run, each with its line on the standard error and its exit status, for every command.
//! A new fault is a variant of `RunFault`, its text in `fault_text` and `push_fault`, and its status.
//! The line is put together in a buffer of fixed size, so that saying that there is no memory takes none.
#![tactic(auto)]

mod capture_name;
mod complaint;
mod exit_status;
mod fault;
mod job_complaint;
mod line;

pub use capture_name::CaptureName;
pub use complaint::complain;
pub use exit_status::status;
pub use fault::{RunFault, Stop};
