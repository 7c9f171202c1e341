//! New links over rings between all senders and all receivers of two layers of a pipeline: the ends of each
//! sender in one list, by the receivers' numbers, and those of each receiver in another, by the senders'.
//! The grids of all four kinds of link are joined to the lists that each node takes.
#![tactic(auto)]

mod grid;
mod pipeline;
#[cfg(test)]
mod tests;

pub use grid::{LinkGrid, link_grid};
pub use pipeline::{PipelineLinks, pipeline_links};
