//! The tokens of a text.

ghost use Rattle.std.specs.Prelude.{◌≡◌, ◌≤◌, ◌<◌, ◌^◌, length, drop, [], ◌∷◌, ◌++◌, IfSome, IfOk, OnOk, IsTrue, slice_index};
ghost use Rattle.std.specs.List.{prefix_len};
ghost use Rattle.query_tokens.specs.Numbers.{is_digit};
ghost use Rattle.query_tokens.specs.Lexing.{is_blank, token_at, number_token, Lexes};

use crate::number::{is_digit, number_length, number_of};
use crate::sign::sign;
use crate::token::Token;
use crate::word::{begins_word, word_length, word_token};
use ds_base::OutOfMemory;
use std::alloc::Global;

/// A token, and the place of its first byte in the text.
#[derive(Clone, Copy, Debug, PartialEq, Eq)]
pub struct Placed {
    pub at: u32,
    pub token: Token,
}

/// The tokens of a text, up to its end or to a place where no token begins.
#[derive(Drop)]
pub struct Lexing {
    pub tokens: Vec<Placed>,
    /// The place where no token begins, or `None` where the tokens go up to the text's end.
    pub stop: Option<u32>,
}

/// Splits a text of less than 2^32 bytes into tokens. It is refused for want of memory alone.
#[tactic(auto, using(crate::proofs::Lexed::lexed_start, crate::proofs::Lexed::lexed_more, crate::proofs::Lexed::lexed_end, crate::proofs::Lexed::lexed_stop))]
pub fn tokens_of(alloc: Global, text: &str) -> Result<Lexing, OutOfMemory>
    requires { length text.now < 2 ^ 32 }
    ensures { IfOk result (λ lexing. Lexes text.now 0 lexing.tokens.items lexing.stop) }
{
    let bytes = text.as_bytes();
    let mut tokens = Vec::new(alloc);
    let mut at = blanks(bytes);
    while at < bytes.len() {
        let Some((token, len)) = token_at(behind(bytes, at), at as u32) else {
            let stop = Some(at as u32);
            return Ok(Lexing { tokens, stop });
        };
        put(
            &mut tokens,
            Placed {
                at: at as u32,
                token,
            },
        )?;
        at += len;
        at += blanks(behind(bytes, at));
    }
    Ok(Lexing { tokens, stop: None })
}

// Puts a token at the end.
fn put(tokens: &mut Vec<Placed>, placed: Placed) -> Result<(), OutOfMemory>
    ensures { OnOk result (tokens.new.items ≡ tokens.old.items ++ placed ∷ []) }
{
    match tokens.push(placed) {
        Ok(()) => Ok(()),
        Err(_) => Err(OutOfMemory),
    }
}

// The bytes from place `at` on.
fn behind(bytes: &[u8], at: usize) -> &[u8]
    requires { at ≤ length bytes.now }
    ensures { result.now ≡ drop at bytes.now }
{
    &bytes[at..]
}

// How many blanks the bytes begin with.
fn blanks(bytes: &[u8]) -> usize
    ensures length { result ≡ prefix_len is_blank bytes.now }
    ensures within { result ≤ length bytes.now }
{
    for (i, byte) in bytes.iter().enumerate() {
        if *byte != b' ' {
            return i;
        }
    }
    bytes.len()
}

// The token that begins the bytes, which stand at place `at` of the text, and its length.
fn token_at(bytes: &[u8], at: u32) -> Option<(Token, usize)>
    requires some { 0 < length bytes.now }
    requires few { length bytes.now < 2 ^ 32 }
    ensures token { result ≡ token_at at bytes.now }
    ensures length { IfSome result (λ found. (0 < found.1) × (found.1 ≤ length bytes.now)) }
{
    if is_digit(bytes[0]) {
        number_token(bytes)
    } else if begins_word(bytes[0]) {
        let len = word_length(bytes);
        Some((word_token(&bytes[..len], at), len))
    } else {
        sign(bytes)
    }
}

// The number that the bytes begin with, and its length.
fn number_token(bytes: &[u8]) -> Option<(Token, usize)>
    requires some { 0 < length bytes.now }
    requires digit { IsTrue (is_digit (slice_index bytes.now 0)) }
    ensures token { result ≡ number_token bytes.now }
    ensures length { IfSome result (λ found. (0 < found.1) × (found.1 ≤ length bytes.now)) }
{
    let len = number_length(bytes);
    let n = number_of(&bytes[..len])?;
    Some((Token::Number(n), len))
}
