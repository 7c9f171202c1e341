//! A packet as one capture point sees it.

use ds_base::ItemList;

/// How many capture points there are.
pub(crate) const POINTS: u32 = 8;

/// A packet as one capture point sees it.
#[derive(Clone, Copy, Debug, PartialEq, Eq)]
pub(crate) struct Sighting {
    /// The number of the capture point, 0 to 7.
    pub(crate) capture: u32,
    /// When, in nanoseconds.
    pub(crate) time: u64,
    /// The packet's number, which is the identification in its IPv4 header.
    pub(crate) id: u16,
    /// The TTL in that header.
    pub(crate) ttl: u8,
}

/// Sightings, in the order in which they are made.
pub(crate) type SightingList = ItemList<Sighting>;
