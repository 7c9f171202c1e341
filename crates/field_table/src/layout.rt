//! Where a field lies in its header, and how it is printed.

use crate::forms::Form;

/// Where the bits of a field begin in its header. Bits are counted from 0, the most significant bit
/// of the first byte.
#[derive(Clone, Copy, Debug, PartialEq, Eq)]
pub enum Start {
    /// At this bit in every header of the kind.
    At(u16),
    /// In GRE after the first four bytes, where the bit C is set (RFC 2784 section 2.1).
    Checksum,
    /// In GRE after the words before it, where the bit K is set (RFC 2890 section 2.1).
    Key,
    /// In GRE after the words before it, where the bit S is set (RFC 2890 section 2.2).
    Sequence,
}

/// Where a field lies in its header, and how it is printed.
#[derive(Clone, Copy, Debug, PartialEq, Eq)]
pub struct Layout {
    /// Where its bits begin.
    pub start: Start,
    /// How many bits it has, 1 to 128.
    pub bits: u8,
    /// How its number is printed.
    pub form: Form,
}
