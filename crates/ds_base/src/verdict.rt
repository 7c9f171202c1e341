//! What a group is judged to be, and the answer that a report has for it.

use crate::{Nums, Stamp};

/// What a group of copies was judged to be.
#[derive(Clone, Copy, Debug, PartialEq, Eq)]
pub enum Verdict {
    /// Nothing is wrong.
    Fine,
    /// A capture saw the packet again with a lesser hop value: `high`, and later `low`.
    Loop { capture: u32, high: u128, low: u128 },
    /// The packet was last seen at this capture, which is no exit.
    Dropped { capture: u32 },
    /// The first `at` members, and no more, begin a path that is allowed.
    Path { at: u64 },
    /// Pair `pair` of neighbouring members breaks rule `rule`, both numbered from 0.
    Rewrite { pair: u64, rule: u32 },
    /// The value of the expression.
    Value { n: u128 },
    /// The expression has no value.
    Undefined,
}

/// One group's answer: its first member's stamp, its key, how many members, and the verdict.
#[derive(Clone, Copy, Debug, PartialEq, Eq)]
pub struct Answer {
    pub first: Stamp,
    pub key: Nums,
    pub members: u64,
    pub verdict: Verdict,
}
