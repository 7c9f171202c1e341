//! Which of the links between parsers and groupers one is.

/// The link from a parser to a grouper, by the number of each among so many.
#[derive(Clone, Copy, Debug, PartialEq, Eq)]
pub struct ItemLink {
    /// How many parsers there are, at least one.
    pub parsers: u32,
    /// The parser's number, from 0.
    pub parser: u32,
    /// How many groupers there are, at least one.
    pub groupers: u32,
    /// The grouper's number, from 0.
    pub grouper: u32,
}
