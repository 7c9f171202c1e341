//! A frame that is due for the processors.
use node_frames::Frame;

/// A frame that is due for the processors, which are numbered from 0.
#[derive(Clone, Copy)]
pub enum Due {
    /// For the processor with this number.
    To(u32, Frame),
    /// The same for each of them.
    All(Frame),
}
