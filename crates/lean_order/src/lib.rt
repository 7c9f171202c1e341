//! The order of the stamps of a list that is packed as far as its summaries fit into rows.
#![tactic(auto)]

mod order;

pub use order::stamp_order;
