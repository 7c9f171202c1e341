//! The whole merge: it takes the counts of the parsers and the answers, marks and rows of the query processors off its
//! links, and writes each line of the report to its sink in the turn in which it is due. What it writes since its start
//! is a front of the report, and all of it once it is done.
#![tactic(auto)]

mod lines;
mod node;
mod noting;
mod work;

pub use node::MergeNode;
