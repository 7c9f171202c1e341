//! How a run of a pipeline goes on, over anything whose nodes take turns: rounds of all nodes, each behind a look at all
//! links, and between them the turns that a chooser asks for. It ends for any such nodes and any chooser: what is ahead of a
//! run falls with each round in which a node moved, and after a round in which none moved all nodes are done.
#![tactic(auto)]

mod node_at;
mod rounds;
mod runs;
mod turning;

pub use node_at::NodeAt;
pub use rounds::{ROUND_CUT, round};
pub use runs::{CHOSEN_TURNS, run_over};
pub use turning::TakesTurns;
