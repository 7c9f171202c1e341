//! What stands at the front of the bytes received.
ghost use Rattle.std.specs.Prelude.{◌≡◌, ◌≤◌, ◌+◌, length, take, drop};
ghost use Rattle.credit_link.specs.Ahead.{length_word, payload_ahead, Shows};

use byteorder::{BigEndian, ByteOrder};

/// A whole frame by its payload's length, a length word that is not lawful, or neither so far.
#[derive(Clone, Copy)]
pub(crate) enum Ahead {
    Part,
    Unlawful(u32),
    Whole(usize),
}

/// What stands at the front of these bytes.
pub(crate) fn look_ahead(bytes: &[u8]) -> Ahead
    ensures { Shows bytes.now result }
{
    if bytes.len() < 4 {
        return Ahead::Part;
    }
    let len = word_of(bytes);
    if len == 0 || len > 1024 {
        return Ahead::Unlawful(len);
    }
    if bytes.len() < 4 + len as usize {
        return Ahead::Part;
    }
    Ahead::Whole(len as usize)
}

#[tactic(auto, unfolding(crate::specs::Ahead::length_word))]
fn word_of(bytes: &[u8]) -> u32
    requires { 4 ≤ length bytes.now }
    ensures { result ≡ length_word bytes.now }
{
    BigEndian::read_u32(bytes)
}

/// The payload of the frame at the front, of `len` bytes.
pub(crate) fn payload(bytes: &[u8], len: usize) -> &[u8]
    requires { 4 + len ≤ length bytes.now }
    ensures { result.now ≡ payload_ahead bytes.now len }
{
    let (_, behind) = bytes.split_at(4);
    behind.split_at(len).0
}
