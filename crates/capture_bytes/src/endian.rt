//! Numbers whose bytes stand in the order that a file states.
ghost use Rattle.std.specs.Prelude.{◌≡◌, ◌+◌, ◌≤◌, length};
ghost use Rattle.capture_bytes.specs.Number.{number};

use byteorder::{BigEndian, ByteOrder, LittleEndian};

/// In which order the bytes of a number stand in the file.
#[derive(Clone, Copy, Debug, PartialEq, Eq)]
pub enum Endian {
    /// The least significant byte first.
    Little,
    /// The most significant byte first.
    Big,
}

/// The number of the four bytes from `at` on.
#[tactic(auto, unfolding(crate::specs::Number::number))]
pub fn read_word(endian: Endian, bytes: &[u8], at: usize) -> u32
    requires { at + 4 ≤ length bytes.now }
    ensures { result ≡ number endian 4 bytes.now at }
{
    let four = &bytes[at..at + 4];
    match endian {
        Endian::Little => LittleEndian::read_u32(four),
        Endian::Big => BigEndian::read_u32(four),
    }
}

/// The number of the two bytes from `at` on.
#[tactic(auto, unfolding(crate::specs::Number::number))]
pub fn read_half(endian: Endian, bytes: &[u8], at: usize) -> u16
    requires { at + 2 ≤ length bytes.now }
    ensures { result ≡ number endian 2 bytes.now at }
{
    let two = &bytes[at..at + 2];
    match endian {
        Endian::Little => LittleEndian::read_u16(two),
        Endian::Big => BigEndian::read_u16(two),
    }
}

/// The number of the eight bytes from `at` on.
#[tactic(auto, unfolding(crate::specs::Number::number))]
pub fn read_long(endian: Endian, bytes: &[u8], at: usize) -> u64
    requires { at + 8 ≤ length bytes.now }
    ensures { result ≡ number endian 8 bytes.now at }
{
    let eight = &bytes[at..at + 8];
    match endian {
        Endian::Little => LittleEndian::read_u64(eight),
        Endian::Big => BigEndian::read_u64(eight),
    }
}
