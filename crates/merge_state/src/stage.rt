//! What of the report is pushed next.

/// What of the report is pushed next.
#[derive(Clone, Copy, Drop)]
pub(crate) enum Stage {
    /// The answers, each once its first is below the least mark.
    Answers,
    /// The row of the profile with this number.
    Rows { next: u32 },
    /// The capture with this number; those before it have so many accepted summaries.
    Captures { next: u32, summaries: u64 },
    /// Nothing: the last line was pushed.
    Ended,
}
