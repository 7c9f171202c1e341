//! All nodes of a pipeline over rings in one value, by their numbers: parsers, groupers, processors, merge. A turn of one
//! node, behind which its links in are looked at, a look at all links, and whether all is done. What contracts see is
//! the plain pipeline of the laws.
#![tactic(auto)]

mod done;
mod looks;
mod nodes;
mod place;
mod turning;
mod turns;

pub use nodes::Nodes;
