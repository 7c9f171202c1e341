//! What a grouper keeps between frames, without its links: it takes the frames of the parsers one by
//! one, gathers their summaries in groups, and tells which frame is due for the processors: the next
//! piece of a closed group for one of them, or a mark or the end for all.
#![tactic(auto)]

mod due_frame;
mod laws;
mod outgoing;
mod state;

pub use due_frame::Due;
pub use laws::state_keeps_promise;
pub use state::GrouperState;
