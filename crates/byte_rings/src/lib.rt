//! The ends of a ring of bytes, which are the ends of a pipe between two nodes of one process. Each end
//! has the name of its ring, which no call changes, and is sure of the places or the bytes that it has
//! seen; `look` shows both ends all of them.
#![tactic(auto)]

mod named;
mod receiving;
mod ring;
mod sending;

pub use named::{NamedRx, NamedTx};
pub use receiving::RingRx;
pub use ring::{byte_ring, look};
pub use sending::RingTx;
