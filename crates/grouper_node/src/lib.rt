//! A whole grouper: it takes the frames of captures off its links in, gathers their summaries in groups, and puts
//! groups, marks and the end on its links out, to the query processors.
#![tactic(auto)]

mod node;
mod noting;
mod settling;
mod work;

pub use node::GrouperNode;
