//! The parts of the text of a field.

ghost use Rattle.std.specs.Prelude.{◌≡◌, ◌<◌, ◌==◌, IfSome, length, option_map, position};
ghost use Rattle.field_table.specs.Reading.{behind_point, index_of, parts_of, small_number, split_at};

use crate::kind::Kind;
use crate::names::{field_named, kind_named};

/// The parts of the text of a field.
#[tactic(auto, unfolding(crate::specs::Reading::parts_of))]
pub(crate) fn parts(text: &[u8]) -> Option<(Kind, (bool, u8), u8)>
    ensures { result ≡ parts_of text.now }
{
    let (front, rest) = split_at(text, b'[')?;
    let (index, rest) = split_at(rest, b']')?;
    let kind = kind_named(front)?;
    let way = way(index)?;
    let name = behind_point(rest)?;
    let field = field_named(kind, name)?;
    Some((kind, way, field))
}

/// What stands before and after the first `mark`.
fn split_at(bytes: &[u8], mark: u8) -> Option<(&[u8], &[u8])>
    ensures { option_map (λ parts. (parts.0.now, parts.1.now)) result ≡ split_at mark bytes.now }
{
    let at = first_place(bytes, mark)?;
    Some((&bytes[..at], &bytes[at + 1..]))
}

/// The place of the first `mark`.
fn first_place(bytes: &[u8], mark: u8) -> Option<usize>
    ensures value { result ≡ position (λ b. b == mark) bytes.now }
    ensures within { IfSome result (λ at. at < length bytes.now) }
{
    bytes.iter().position(|b| *b == mark)
}

/// What stands after a point.
fn behind_point(bytes: &[u8]) -> Option<&[u8]>
    ensures { option_map (λ name. name.now) result ≡ behind_point bytes.now }
{
    match bytes {
        [b'.', name @ ..] => Some(name),
        _ => None,
    }
}

/// The direction of an index, and the steps from that end.
#[tactic(auto, unfolding(crate::specs::Reading::index_of))]
fn way(index: &[u8]) -> Option<(bool, u8)>
    ensures { result ≡ index_of index.now }
{
    match index {
        [b'-', digits @ ..] => match small_number(digits)? {
            n @ 1..=16 => Some((true, n - 1)),
            _ => None,
        },
        _ => match small_number(index)? {
            n @ 0..=15 => Some((false, n)),
            _ => None,
        },
    }
}

/// A number below 20 in decimal, without leading zeros.
fn small_number(digits: &[u8]) -> Option<u8>
    ensures { result ≡ small_number digits.now }
{
    match digits {
        [d @ b'0'..=b'9'] => Some(*d - b'0'),
        [b'1', d @ b'0'..=b'9'] => Some(10 + (*d - b'0')),
        _ => None,
    }
}
