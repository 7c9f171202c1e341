//! What a header says of the bytes after it.

use crate::kind::Kind;

/// What a header says of the bytes after it.
#[derive(Clone, Copy, Debug, PartialEq, Eq)]
pub enum Next {
    /// No header that is known here.
    End,
    /// A header of this kind.
    Header(Kind),
}

/// A header that was read.
#[derive(Clone, Copy, Debug, PartialEq, Eq)]
pub struct Head {
    /// How many bytes the header has.
    pub len: u32,
    /// What stands after it.
    pub next: Next,
    /// The end of the bytes that the headers after it may use, counted from this header's first
    /// byte.
    pub limit: u32,
}
