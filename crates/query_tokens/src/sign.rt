//! Signs of one byte and of two.

ghost use Rattle.std.specs.Prelude.{◌≡◌, ◌<◌, ◌≤◌, length, slice_index, OnSome, IfSome};
ghost use Rattle.query_tokens.specs.Signs.{double_sign, single_sign, sign};

use crate::token::{Operator, Token};

// A sign of two bytes.
fn double_sign(first: u8, second: u8) -> Option<Token>
    ensures sign { result ≡ double_sign first second }
    ensures second { OnSome result (0 < second) }
{
    match (first, second) {
        (b'|', b'|') => Some(Token::Between(Operator::Or)),
        (b'&', b'&') => Some(Token::Between(Operator::And)),
        (b'=', b'=') => Some(Token::Between(Operator::Equal)),
        (b'!', b'=') => Some(Token::Between(Operator::NotEqual)),
        (b'<', b'=') => Some(Token::Between(Operator::AtMost)),
        (b'>', b'=') => Some(Token::Between(Operator::AtLeast)),
        _ => None,
    }
}

// A sign of one byte.
fn single_sign(byte: u8) -> Option<Token>
    ensures { result ≡ single_sign byte }
{
    match byte {
        b'<' => Some(Token::Between(Operator::Less)),
        b'>' => Some(Token::Between(Operator::Greater)),
        b'+' => Some(Token::Between(Operator::Plus)),
        b'-' => Some(Token::Between(Operator::Minus)),
        b'*' => Some(Token::Between(Operator::Times)),
        b'/' => Some(Token::Between(Operator::Divide)),
        b'%' => Some(Token::Between(Operator::Remainder)),
        b'&' => Some(Token::Between(Operator::BitAnd)),
        b'(' => Some(Token::Open),
        b')' => Some(Token::Close),
        b',' => Some(Token::Comma),
        _ => None,
    }
}

/// The longest sign that bytes begin with, and its length.
pub(crate) fn sign(bytes: &[u8]) -> Option<(Token, usize)>
    requires { 0 < length bytes.now }
    ensures sign { result ≡ sign bytes.now }
    ensures length { IfSome result (λ found. (0 < found.1) × (found.1 ≤ length bytes.now)) }
{
    let first = byte_at(bytes, 0);
    match double_sign(first, byte_at(bytes, 1)) {
        Some(token) => Some((token, 2)),
        None => Some((single_sign(first)?, 1)),
    }
}

// The byte at `i`, or 0 past the end.
fn byte_at(bytes: &[u8], i: usize) -> u8
    ensures byte { result ≡ slice_index bytes.now i }
    ensures within { 0 < result → i < length bytes.now }
{
    if i < bytes.len() { bytes[i] } else { 0 }
}
