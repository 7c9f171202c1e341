//! Nodes by their kinds.

/// A node of a pipeline: its kind, and its number among those of its kind.
#[derive(Clone, Copy, Debug, PartialEq, Eq)]
pub(crate) enum NodePlace {
    Parser(u32),
    Grouper(u32),
    Processor(u32),
    Merge,
}
