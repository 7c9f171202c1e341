//! What can be wrong with a link.
use node_frames::Seal;

/// Why an end of a link goes no further.
#[derive(Clone, Copy, Debug, PartialEq, Eq)]
pub enum LinkBad {
    /// A call of one of its pipes failed.
    Failed,
    /// The length word at offset `at` is `len`, which is 0 or above 1,024, or no frame that may stand
    /// there is spelled by the payload of this length.
    Frame { at: u64, len: u32 },
    /// The credit byte number `at`, counted from 0 over the link's life, is not 1, or no frame was held.
    Credit { at: u64, got: u8 },
    /// The frame at offset `at` may not stand on this link.
    Order { at: u64 },
    /// The end of the link at offset `at` tells of other frames than came.
    Seal { at: u64, told: Seal, found: Seal },
}
