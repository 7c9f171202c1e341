//! One row of the delays between capture points.

/// The delays between two capture points: those of neighbouring members of groups, the earlier one
/// seen at `from` and the later one at `to`, in nanoseconds.
#[derive(Clone, Copy, Debug, PartialEq, Eq)]
pub struct ProfileRow {
    /// The number of the capture that saw the earlier copy.
    pub from: u32,
    /// The number of the capture that saw the later copy.
    pub to: u32,
    /// How many delays there are.
    pub count: u64,
    /// Their sum.
    pub sum: u128,
    /// The least of them.
    pub least: u64,
    /// The greatest of them.
    pub greatest: u64,
    /// How many of them are of each class, 0 to 63: the least k with the delay below 2^k.
    pub classes: [u64; 64],
}
