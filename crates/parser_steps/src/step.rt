//! What a step answers.

/// What a step of a parser did.
#[derive(Clone, Copy, Debug, PartialEq, Eq)]
pub enum Stepped {
    /// A record was taken up, and the frames that it is due were put.
    Took,
    /// A piece of a source was read.
    Read,
    /// A capture has ended, and its end was put for the groupers and its row for the merge.
    CaptureEnded,
    /// All captures have ended, and the end was put on each link.
    Ended,
}
