//! A list that contracts alone see, for what a contract speaks of and no code needs: such as all frames
//! that ever went over a link.
#![tactic(auto)]

mod list;

pub use list::GhostList;
