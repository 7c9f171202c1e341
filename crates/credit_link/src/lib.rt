//! Links with credits: frames go over a pipe of bytes, and for each one that was taken a credit comes back
//! over another. A sender holds at most as many frames as there are credits, and the link's end seals all
//! that went before it by the number of frames and the digest of the bytes.
#![tactic(auto)]

mod ahead;
mod laws;
mod link_bad;
mod receiver;
mod receiving;
mod rings;
mod row;
mod sender;
mod sending;
mod slices;
mod turn;

pub use byte_rings::{NamedRx, NamedTx, RingRx, RingTx};
use ds_base::ItemList;
pub use laws::{each_byte_is_a_credit, frames_are_a_prefix, no_fault_stands_next, owed_are_held};
pub use link_bad::LinkBad;
pub use receiving::LinkRx;
pub use rings::ring_link;
pub use row::LinkRow;
pub use sending::{LinkTx, NoLink};
pub use turn::{NodeFault, Turn};

/// Rows of links, in the order of their links.
pub type LinkRows = ItemList<LinkRow>;

/// Sending ends of links, in the order of their numbers.
pub type LinkTxList<T, R> = ItemList<LinkTx<T, R>>;

/// Receiving ends of links, in the order of their numbers.
pub type LinkRxList<R, T> = ItemList<LinkRx<R, T>>;
