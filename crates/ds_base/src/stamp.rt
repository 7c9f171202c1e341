//! When and where a record was captured.

/// An hour, in nanoseconds: no window and no skew is longer.
pub const HOUR: u64 = 3_600_000_000_000;

/// Where and when a record was captured. Stamps are ordered by time, then capture, then number.
#[derive(Clone, Copy, Debug, PartialEq, Eq, PartialOrd, Ord)]
pub struct Stamp {
    /// Nanoseconds since 1970, below 2^63.
    pub time: u64,
    /// The capture's number in the job, from 0.
    pub capture: u32,
    /// The record's number in its file, from 0.
    pub number: u64,
}
