//! What contracts see of the four kinds of node, what is true of each between turns, and what a turn does to it; and
//! what follows for a pipeline of such nodes, over rings, with any numbers of them. It has no code but laws: calls
//! that do nothing, whose contracts say what is true.
#![tactic(auto)]

mod laws;

pub use laws::{
    each_stands, net_goes_on, net_is_snapshot, new_nodes_stand, no_link_fault_comes,
    rested_is_at_rest, still_is_done, turns_go_on, turns_make_rounds, view_is_sound,
};
