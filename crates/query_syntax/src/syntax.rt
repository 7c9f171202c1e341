//! A text, read to a syntax tree.

ghost use Rattle.std.specs.Prelude.{◌≡◌, ◌==◌, ◌-◌, ◌&&◌, Err, ◌<◌, ◌^◌, length, slice_get, Some, if◌then◌else◌, IfOk, IfErr};
ghost use Rattle.query_syntax.specs.Tree.{tree_of};
ghost use Rattle.query_syntax.specs.Faults.{is_open, is_close, Reads, TellsFault};

use crate::call::{is_close, is_open};
use crate::fault::{ParseFault, QueryFault, QueryWhat};
use crate::machine::{Mode, finish, step};
use crate::tree::Syntax;
use query_tokens::{Placed, Token, tokens_of};
use std::alloc::Global;

/// The syntax tree of a text of less than 2^32 bytes, or its first fault, which is no `Name`. How
/// deep the calls go does not depend on the text.
pub fn syntax_of(alloc: Global, text: &str) -> Result<Syntax, ParseFault>
    requires { length text.now < 2 ^ 32 }
    ensures tree { IfOk result (λ tree. Reads text.now (tree_of tree)) }
    ensures fault { IfErr result (λ fault. TellsFault text.now fault) }
{
    let lexing = tokens_of(alloc, text)?;
    let mut stack = Vec::new(alloc);
    let mut mode = Mode::Want;
    let mut opens: usize = 0;
    let mut closes: usize = 0;
    for i in 0..lexing.tokens.len() {
        let placed = nth(&lexing.tokens, i);
        if is_deep(placed.token, opens, closes) {
            return bad(QueryWhat::Deep, placed.at);
        }
        let Some(next) = step(alloc, &mut stack, mode, placed.token)? else {
            return bad(QueryWhat::Syntax, placed.at);
        };
        mode = next;
        opens += one_if(is_open(placed.token));
        closes += one_if(is_close(placed.token));
    }
    if let Some(at) = lexing.stop {
        return bad(QueryWhat::Token, at);
    }
    match finish(alloc, stack, mode)? {
        Some(tree) => Ok(tree),
        None => bad(QueryWhat::Syntax, text.len() as u32),
    }
}

// The answer that tells a fault.
fn bad(what: QueryWhat, at: u32) -> Result<Syntax, ParseFault>
    ensures { result ≡ Err (ParseFault.Bad (record { at = at; what = what })) }
{
    Err(ParseFault::Bad(QueryFault { at, what }))
}

// Token number `i`.
fn nth(tokens: &[Placed], i: usize) -> Placed
    requires { i < length tokens.now }
    ensures { slice_get tokens.now i ≡ Some result }
{
    tokens[i]
}

// Whether this is a `(` that makes 33 open, behind so many that open and close.
fn is_deep(token: Token, opens: usize, closes: usize) -> bool
    ensures { result ≡ (is_open token && opens - closes == 32) }
{
    is_open(token) && opens.saturating_sub(closes) == 32
}

fn one_if(holds: bool) -> usize
    ensures { result ≡ (if holds then 1 else 0) }
{
    if holds { 1 } else { 0 }
}
