//! What captures declare, as lists: an item a capture, in the order of their numbers.

use ds_base::{ItemList, NameList};

/// The offset of each capture, in nanoseconds: what is added to the times of its records.
pub type OffsetList = ItemList<i64>;

/// The skew of each capture, in nanoseconds.
pub type SkewList = ItemList<u64>;

/// The skew of each capture that has one of its own, in nanoseconds.
pub type OwnSkewList = ItemList<Option<u64>>;

/// The interface of each capture whose packets are its records; none: those of all interfaces.
pub type InterfaceList = ItemList<Option<u32>>;

/// What captures declare. All lists have the same length.
#[derive(Drop)]
pub struct CaptureLists {
    pub names: NameList,
    pub files: NameList,
    pub offsets: OffsetList,
    pub own_skews: OwnSkewList,
    pub interfaces: InterfaceList,
}
