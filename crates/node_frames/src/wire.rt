//! What stands on a link: a frame, or the seal that stands there for its end.
use crate::Frame;
use thiserror::Error;

/// The SHA-256 (FIPS 180-4) of bytes.
#[derive(Clone, Copy, Debug, PartialEq, Eq)]
pub struct Digest {
    pub bytes: [u8; 32],
}

/// What the end of a link tells of all that went before it.
#[derive(Clone, Copy, Debug, PartialEq, Eq)]
pub struct Seal {
    /// How many frames went before it on the link.
    pub frames: u64,
    /// The digest of all bytes of the link before its own length word.
    pub digest: Digest,
}

/// A frame as it stands on a link, where `Finish` stands as its seal and in no other form.
#[derive(Clone, Copy, Debug, PartialEq, Eq)]
pub enum Wire {
    /// A frame other than `Finish`.
    Plain(Frame),
    /// The end of the link.
    Sealed(Seal),
}

/// The bytes spell no frame.
#[derive(Clone, Copy, Debug, PartialEq, Eq, Error)]
#[error("the bytes spell no frame")]
pub struct FrameFault;
