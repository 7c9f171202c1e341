//! What a poll answers of the links on which a frame waits.
use credit_link::LinkBad;

/// The links on which a frame waits at the end of a poll, a bit each: link 0 is the lowest.
#[derive(Clone, Copy, Debug, PartialEq, Eq)]
pub struct Needs {
    /// Those on which as many frames are held as there are credits, and no credit came back.
    pub credit: u32,
    /// The others.
    pub room: u32,
    /// Whether a byte moved in the poll.
    pub moved: bool,
}

/// Whether a frame waits at the end of a poll.
#[derive(Clone, Copy, Debug, PartialEq, Eq)]
pub enum Polled {
    Ready,
    Pending,
}

/// A link goes no further.
#[derive(Clone, Copy, Debug, PartialEq, Eq)]
pub struct ShuffleFault {
    pub link: u32,
    pub bad: LinkBad,
}

/// What the frame that waits on a link needs, if one waits.
#[derive(Clone, Copy, Debug, PartialEq, Eq)]
pub enum Need {
    /// No frame waits.
    Nothing,
    /// A credit: as many frames are held as there are credits, and none came back.
    Credit,
    /// Room for bytes in the data pipe, or another poll.
    Room,
}

/// What one poll did to a link: how many bytes moved, and what the frame that waits then needs.
#[derive(Clone, Copy)]
pub struct Passed {
    pub moved: u32,
    pub need: Need,
}
