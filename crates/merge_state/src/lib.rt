//! What the merge keeps between frames, without its links and its sink: it takes the counts of the parsers
//! and the answers, marks and rows of the query processors one by one, and puts each line of the report at the
//! end of a text once it is due.
#![tactic(auto)]

mod answer_queue;
mod laws;
mod stage;
mod state;

pub use laws::{links_tell, state_keeps_promise};
pub use state::MergeState;
