//! What a query processor keeps between frames, without its links: it takes the frames of the groupers one by one,
//! answers each whole group, and tells which frame is due for the merge: a mark, a row of the profile, or the end.
#![tactic(auto)]

mod laws;
mod state;
mod taking;

pub use laws::state_keeps_promise;
pub use state::QueryState;
