//! A new pipeline: all its links, nodes and the room that closing it takes. Every refusal but that of a parser comes
//! before the first source is moved; where a parser is refused, those that were made are closed again, so that all
//! sources come back in their order, and so does the sink.
#![tactic(auto)]

mod layers;
mod opening;
mod room;
mod shape;

pub use opening::{NewNodes, NotOpened, open_nodes};
pub use room::{SourceRoom, gather_sources};
pub use shape::Shape;
