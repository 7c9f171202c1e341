//! The ends of links as nodes hold them, and the loops over them that all nodes share.
#![tactic(auto)]

mod lending;
mod pulling;
mod receiving;
mod sending;

pub use lending::{LendsOut, lend_in};
pub use pulling::{grant_at, pull_at, refuse_order};
pub use receiving::{pump_ins, taken_all};
pub use sending::poll_outs;
