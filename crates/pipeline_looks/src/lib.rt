//! The look behind a turn: both ends of each link into one node are shown every byte and every free place of the link's
//! rings. One loop serves links of all four kinds; the calls over whole nodes say of it what the laws of a pipeline ask of
//! the node that was looked at, of each sender, and of both ends of each link.
#![tactic(auto)]

mod links;
mod looking;
mod nodes;

pub use links::look_at_links;
pub use looking::LooksIn;
pub use nodes::{look_at_grouper, look_at_merge, look_at_processor};
