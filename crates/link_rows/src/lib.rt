//! The rows of the links of a pipeline: how many frames were sent and taken on each, and how many were held at most. One
//! loop serves the links of each layer of nodes, and the rows stand in the order of the links' numbers. `RunRows` is what
//! a run hands out: only the nodes themselves can make one that says that it is done.
#![tactic(auto)]

mod ends;
mod pushing;
mod reading;
mod run_rows;

pub use reading::read_rows;
pub use run_rows::RunRows;
