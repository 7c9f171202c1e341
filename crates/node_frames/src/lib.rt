//! The frames that nodes send one another, and their bytes: `encode` writes the one spelling of a
//! frame, `decode` gives the frame that bytes spell and refuses all other bytes. The table of frames
//! is in specs/Table.antt.
#![tactic(auto)]

mod buffer;
mod decoding;
mod encoding;
mod frame;
mod laws;
mod put;
mod take;
#[cfg(test)]
mod tests;
mod wire;

pub use buffer::Bytes8;
pub use decoding::decode;
pub use encoding::encode;
pub use frame::Frame;
pub use laws::{
    bytes_come_after, bytes_of_frames, frame_is_offered, frame_opens_rest, one_spelling,
    two_readings_are_one,
};
pub use wire::{Digest, FrameFault, Seal, Wire};
