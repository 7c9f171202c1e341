//! The links that lead from one node to others, polled by hand: frames that are put wait until their link
//! takes them, and a poll names the links on which one waits, each with its reason.
#![tactic(auto)]

mod lane;
mod needs;
mod queue;
mod shuffle;
#[cfg(test)]
mod tests;

pub use needs::{Need, Needs, Passed, Polled, ShuffleFault};
pub use shuffle::{NoShuffle, Shuffle};
