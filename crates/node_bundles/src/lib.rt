//! Bundles of nodes for threads: the nodes of one worker, which takes rounds of them. What a bundle promises speaks of its own
//! nodes alone: each goes on by its turns, and keeps its promise. What the two ends of a link know of each other comes
//! back by a look, once both are in one thread again.
#![tactic(auto)]

mod any_node;
mod bundle;
mod turning;

pub use any_node::{AnyList, AnyNode, PHASE_CUT};
pub use bundle::{IDLE_ROUNDS, PHASE_ROUNDS, run_bundle};
pub use turning::{NoNode, TakesTurn};
