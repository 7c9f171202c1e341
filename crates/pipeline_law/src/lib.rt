//! What is true of a whole pipeline over rings, with any numbers of nodes: at every moment what was written is a front of
//! the report; where all nodes are done it is the report; and the rows of its links, in the order of the links' numbers. It
//! has no code but laws: calls that do nothing, whose contracts say what is true.
#![tactic(auto)]

mod laws;

pub use laws::{
    done_is_whole, done_rows_agree, done_rows_have_bound, files_stay, held_is_within,
    moment_is_snapshot, rows_are_numbered,
};
