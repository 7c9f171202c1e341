//! A link's row of a report.

/// What went over one link, from a node to another.
#[derive(Clone, Copy, Debug, PartialEq, Eq)]
pub struct LinkRow {
    /// The numbers of the two nodes.
    pub from: u32,
    pub to: u32,
    /// How many frames were sent, and how many were taken off the link.
    pub sent: u64,
    pub taken: u64,
    /// The greatest number of frames that were held at once.
    pub most_held: u64,
}
