//! Words: what they are made of, and which are reserved.

ghost use Rattle.std.specs.Prelude.{◌≡◌, ◌<◌, ◌≤◌, ◌^◌, length, bytes_eq, IsTrue, slice_index};
ghost use Rattle.std.specs.List.{prefix_len};
ghost use Rattle.query_tokens.specs.Words.{begins_word, is_word_byte, is_reserved, pick, reserved, word_token};

use crate::number::{is_digit, is_letter};
use crate::token::{Measure, Part, Pick, Token, Word};

/// Whether a word begins with this byte: a letter or `_`.
pub fn begins_word(byte: u8) -> bool
    ensures { result ≡ begins_word byte }
{
    is_letter(byte) || byte == b'_'
}

/// Whether a word goes on over this byte: letters, digits and `_`.
pub fn is_word_byte(byte: u8) -> bool
    ensures { result ≡ is_word_byte byte }
{
    begins_word(byte) || is_digit(byte)
}

/// How many letters, digits and `_` the bytes begin with.
#[tactic(auto, using(crate::proofs::Prefixes::prefix_len_positive))]
pub(crate) fn word_length(bytes: &[u8]) -> usize
    ensures length { result ≡ prefix_len is_word_byte bytes.now }
    ensures some { 0 < length bytes.now → IsTrue (begins_word (slice_index bytes.now 0)) → 0 < result }
    ensures within { result ≤ length bytes.now }
{
    for (i, byte) in bytes.iter().enumerate() {
        if !is_word_byte(*byte) {
            return i;
        }
    }
    bytes.len()
}

// Whether the word is this text.
fn is(word: &[u8], text: &str) -> bool
    ensures { result ≡ bytes_eq word.now text.now }
{
    word == text.as_bytes()
}

// The reserved word that this is.
fn reserved(word: &[u8], at: u32) -> Option<Token>
    ensures { result ≡ reserved at word.now }
{
    if is(word, "time") {
        Some(Token::Stamp(Part::Time, at))
    } else if is(word, "capture") {
        Some(Token::Stamp(Part::Capture, at))
    } else if is(word, "count") {
        Some(Token::Whole(Measure::Count, at))
    } else if is(word, "span") {
        Some(Token::Whole(Measure::Span, at))
    } else if is(word, "at") {
        Some(Token::At(at))
    } else if is(word, "not") {
        Some(Token::Not(at))
    } else {
        Some(Token::Of(pick(word)?, at))
    }
}

/// Whether the expressions keep a word for themselves.
pub fn is_reserved(word: &[u8]) -> bool
    ensures { result ≡ is_reserved word.now }
{
    match reserved(word, 0) {
        Some(_) => true,
        None => false,
    }
}

// What a call with one name is called.
fn pick(word: &[u8]) -> Option<Pick>
    ensures { result ≡ pick word.now }
{
    if is(word, "seen") {
        Some(Pick::Seen)
    } else if is(word, "first") {
        Some(Pick::First)
    } else if is(word, "last") {
        Some(Pick::Last)
    } else if is(word, "min") {
        Some(Pick::Min)
    } else if is(word, "max") {
        Some(Pick::Max)
    } else if is(word, "distinct") {
        Some(Pick::Distinct)
    } else {
        None
    }
}

/// The token of the word at place `at` of the text: a reserved word, or else a name.
pub(crate) fn word_token(word: &[u8], at: u32) -> Token
    requires { length word.now < 2 ^ 32 }
    ensures { result ≡ word_token at word.now }
{
    match reserved(word, at) {
        Some(token) => token,
        None => Token::Name(Word {
            at,
            len: word.len() as u32,
        }),
    }
}
