//! Judges of the way that a packet took: whether it came back to a capture with a lesser hop value,
//! whether it was last seen short of every exit, and whether its captures are a path that is allowed.
//! Each answers its verdict for any group, in time linear in the group, and takes no memory.
#![tactic(auto)]

mod drop;
mod hop_loop;
mod matching;
mod members;
mod path;
mod pattern;

pub use drop::judge_drop;
pub use hop_loop::judge_loop;
pub use path::judge_path;
pub use pattern::{Pattern, PatternList, Step};

#[cfg(test)]
mod tests;
