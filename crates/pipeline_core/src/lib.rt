//! A pipeline: parsers, groupers, query processors and the merge, 1 to 16 of each but the last, and all links between
//! them, over rings. Whatever nodes take turns in whatever order, at every moment what was written is a front of the
//! report; where all nodes are done it is the report, and closing the pipeline hands out the rows of its links.
#![tactic(auto)]

mod closing;
mod keeping;
mod opening;
mod pipeline;
mod turning;

pub use closing::Closed;
pub use link_rows::RunRows;
pub use new_pipeline::{NotOpened, Shape};
pub use pipeline::Pipeline;
pub use run_rounds::NodeAt;
