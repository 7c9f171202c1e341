//! Summaries of packets, and groups of them.

use crate::{ItemList, Nums, Stamp};

/// What is kept of one captured packet: where and when, its key, and the value of each variable.
#[derive(Clone, Copy, Debug, PartialEq, Eq)]
pub struct Summary {
    pub at: Stamp,
    pub key: Nums,
    pub vals: Nums,
}

/// The copies of one packet: summaries of one key within a window, in the order of their stamps.
#[derive(Drop)]
pub struct Group {
    pub key: Nums,
    pub members: ItemList<Summary>,
}
