//! A whole query processor: it takes the frames of groups off its links in, answers each group that is whole, and
//! puts answers, marks, the rows of the profile and the end on its link out, to the merge.
#![tactic(auto)]

mod node;
mod noting;
mod settling;
mod work;

pub use node::QueryNode;
