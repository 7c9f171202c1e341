//! The shape of a pipeline.

/// How many nodes a pipeline has of each kind beside its one merge, 1 to 16 each, and how many credits each of its
/// links, 1 to 1,024.
#[derive(Clone, Copy, Debug, PartialEq, Eq)]
pub struct Shape {
    pub parsers: u32,
    pub groupers: u32,
    pub processors: u32,
    pub credits: u32,
}
