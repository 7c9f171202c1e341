//! The bytes of a capture file as they come: a `Buffer` that is fed at its end, used up from its front and
//! lends what it holds, and numbers in either order of bytes. Both formats of capture files are read over
//! these, libpcap 2.4 and pcapng.
#![tactic(auto)]

mod buffer;
mod endian;

pub use buffer::Buffer;
pub use endian::{Endian, read_half, read_long, read_word};
