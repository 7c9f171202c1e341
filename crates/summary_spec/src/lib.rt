//! The declaration of a job: which captures there are, which fields of a packet are variables, the
//! key and the window that gather the copies of a packet, and what is asked of each group.
//! `Job::read` tells the first fault of a declaration in its place.
#![tactic(auto)]

mod count;
mod job;
mod judge;
mod law;
mod print;
mod reading;

pub use job::Job;
pub use job_table::{FieldList, InterfaceList, OffsetList, Query, SkewList, TakeList};
pub use job_values::{JobFault, JobWhat, Member, ReadJobFault};
pub use law::one_verdict;

#[cfg(test)]
mod fault_tests;
#[cfg(test)]
mod judge_tests;
#[cfg(test)]
mod tests;
