//! The frames that nodes put on links and take off them.
use ds_base::{Answer, Counts, Nums, ProfileRow, Stamp, Summary};

/// What a node tells another over a link. Times and marks are in nanoseconds since 1970.
#[derive(Clone, Copy, Debug, PartialEq, Eq)]
pub enum Frame {
    /// An accepted summary, from a parser to the grouper of its shard.
    Item(Summary),
    /// No further summary of this capture has a time below `mark`.
    Mark {
        capture: u32,
        mark: u64,
    },
    /// The capture has ended.
    CaptureEnd {
        capture: u32,
    },
    /// A group of so many members begins, of which `first` is the first one's stamp.
    GroupHead {
        first: Stamp,
        members: u64,
        key: Nums,
    },
    /// The next member of the group that was begun last.
    Member {
        at: Stamp,
        vals: Nums,
    },
    /// No further group begins below `mark`.
    GroupMark {
        mark: u64,
    },
    /// The answer for one group.
    AnswerRow(Answer),
    /// The delays between two captures.
    Profile(ProfileRow),
    /// How the records of a capture fared.
    CountsRow {
        capture: u32,
        counts: Counts,
    },
    /// Nothing follows on this link.
    Finish,
}
