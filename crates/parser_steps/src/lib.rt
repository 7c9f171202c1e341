//! A parser without its turns, which is lent its links: its captures with their sources, and the step that
//! takes one record up, reads one piece of a source, ends a capture or puts the end of the links, and puts the
//! frames that are due.
#![tactic(auto)]

mod fresh;
mod one;
mod over;
mod state;
mod step;

pub use state::ParserSteps;
pub use step::Stepped;
