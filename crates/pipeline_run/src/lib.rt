//! A whole run of a pipeline in one thread: it is never stuck, it ends, and where it ends Ok the report was written.
#![tactic(auto)]

mod here;

pub use here::run_here;
