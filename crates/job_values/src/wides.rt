//! Wide numbers: below 2^128, as a number or as a text.

ghost use Rattle.std.specs.Prelude.{◌≡◌, ◌&&◌, ◌<◌, ◌^◌, length, IfOk, slice_index};
ghost use Rattle.std.specs.List.{list_all};
ghost use Rattle.query_tokens.specs.Numbers.{is_digit, is_number_byte};
ghost use Rattle.serde_json.specs.View.{view};
ghost use Rattle.job_values.specs.Said.{Answers};
ghost use Rattle.job_values.specs.Wide.{is_number_run, number_text, number_in, only_number, wide};

use crate::fault::{JobWhat, ReadJobFault, fault_at};
use crate::member::Member;
use ds_base::OutOfMemory;
use query_tokens::{Lexing, Token, is_digit, is_number_byte, tokens_of};
use serde_json::Value;
use std::alloc::Global;

/// The wide number that a value is: a number, or a text that is one number token.
pub fn wide(alloc: Global, value: &Value, member: Member, index: u32) -> Result<u128, ReadJobFault>
    ensures { Answers (λ n. n) (wide member index (view value.now)) result }
{
    if let Some(n) = value.as_u64() {
        return Ok(u128::from(n));
    }
    let Some(text) = value.as_str() else {
        return Err(ReadJobFault::Bad(fault_at(member, index, JobWhat::WrongKind)));
    };
    match number_text(alloc, text)? {
        Some(n) => Ok(n),
        None => Err(ReadJobFault::Bad(fault_at(member, index, JobWhat::WrongKind))),
    }
}

#[tactic(auto, using(crate::proofs::NumberTexts::number_is))]
// The number of a text that is one number token. No declaration is as long as 2^32 bytes.
fn number_text(alloc: Global, text: &str) -> Result<Option<u128>, OutOfMemory>
    ensures { IfOk result (λ n. n ≡ number_text text.now) }
{
    if !is_number_run(text.as_bytes()) {
        return Ok(None);
    }
    if text.len() >= 1 << 32 {
        return Err(OutOfMemory);
    }
    let lexing = tokens_of(alloc, text)?;
    Ok(only_number(&lexing))
}

// Whether these are a digit and then bytes of numbers.
fn is_number_run(bytes: &[u8]) -> bool
    ensures { result ≡ is_number_run bytes.now }
{
    begins_with_digit(bytes) && is_all_number_bytes(bytes)
}

fn begins_with_digit(bytes: &[u8]) -> bool
    ensures { result ≡ is_digit (slice_index bytes.now 0) }
{
    !bytes.is_empty() && is_digit(bytes[0])
}

fn is_all_number_bytes(bytes: &[u8]) -> bool
    ensures { result ≡ list_all is_number_byte bytes.now }
{
    bytes.iter().all(|b| is_number_byte(*b))
}

// The number that the only token is.
fn only_number(lexing: &Lexing) -> Option<u128>
    ensures { result ≡ only_number lexing.now.tokens.items }
{
    match lexing.tokens.as_slice() {
        [placed] => number_in(placed.token),
        _ => None,
    }
}

// The number that a token is.
fn number_in(token: Token) -> Option<u128>
    ensures { result ≡ number_in token }
{
    match token {
        Token::Number(n) => Some(n),
        _ => None,
    }
}
