//! Calls, as they are read.

ghost use Rattle.std.specs.Prelude.{◌≡◌};
ghost use Rattle.query_syntax.specs.Faults.{is_open, is_close};
ghost use Rattle.query_syntax.specs.Machine.{is_comma, name_in, want, inside};

use crate::tree::Atom;
use query_tokens::{Measure, Pick, Token, Word};

/// A call of which some tokens were read: which, its place, and its names so far.
#[derive(Clone, Copy)]
pub(crate) enum Call {
    /// `not`
    Not(u32),
    /// `count` or `span`
    Whole(Measure, u32),
    /// The same, and `(`
    WholeOpen(Measure, u32),
    /// `seen`, `first` and the like
    Of(Pick, u32),
    /// The same, and `(`
    OfOpen(Pick, u32),
    /// The same, and the name
    OfName(Pick, u32, Word),
    /// `at`
    At(u32),
    /// `at (`
    AtOpen(u32),
    /// `at (` and a name
    AtName(u32, Word),
    /// `at (`, a name and `,`
    AtComma(u32, Word),
    /// `at (` and two names
    AtNames(u32, Word, Word),
}

/// What a token makes of a place where an operand is wanted, or of a call.
#[derive(Clone, Copy)]
pub(crate) enum Turn {
    /// A whole atom was read.
    Reads(Atom),
    /// A call goes on.
    Calls(Call),
    /// A parenthesis was opened.
    Opens,
    /// `not` at this place has its parenthesis.
    OpensNot(u32),
}

/// What a token makes of a place where an operand is wanted, or `None` where it cannot stand there.
pub(crate) fn want(token: Token) -> Option<Turn>
    ensures { result ≡ want token }
{
    match token {
        Token::Number(n) => Some(Turn::Reads(Atom::Number(n))),
        Token::Name(word) => Some(Turn::Reads(Atom::Name(word))),
        Token::Stamp(part, at) => Some(Turn::Reads(Atom::Stamp(part, at))),
        Token::Whole(measure, at) => Some(Turn::Calls(Call::Whole(measure, at))),
        Token::Of(pick, at) => Some(Turn::Calls(Call::Of(pick, at))),
        Token::At(at) => Some(Turn::Calls(Call::At(at))),
        Token::Not(at) => Some(Turn::Calls(Call::Not(at))),
        Token::Open => Some(Turn::Opens),
        Token::Between(_) | Token::Close | Token::Comma => None,
    }
}

/// What a token makes of a call, or `None` where it cannot stand there.
pub(crate) fn inside(call: Call, token: Token) -> Option<Turn>
    ensures { result ≡ inside call token }
{
    match call {
        Call::Not(at) => is_open(token).then_some(Turn::OpensNot(at)),
        Call::Whole(measure, at) => {
            is_open(token).then_some(Turn::Calls(Call::WholeOpen(measure, at)))
        }
        Call::WholeOpen(measure, at) => {
            is_close(token).then_some(Turn::Reads(Atom::Whole(measure, at)))
        }
        Call::Of(pick, at) => is_open(token).then_some(Turn::Calls(Call::OfOpen(pick, at))),
        Call::OfOpen(pick, at) => Some(Turn::Calls(Call::OfName(pick, at, name_in(token)?))),
        Call::OfName(pick, at, word) => {
            is_close(token).then_some(Turn::Reads(Atom::Of(pick, at, word)))
        }
        Call::At(at) => is_open(token).then_some(Turn::Calls(Call::AtOpen(at))),
        Call::AtOpen(at) => Some(Turn::Calls(Call::AtName(at, name_in(token)?))),
        Call::AtName(at, capture) => {
            is_comma(token).then_some(Turn::Calls(Call::AtComma(at, capture)))
        }
        Call::AtComma(at, capture) => {
            let variable = name_in(token)?;
            Some(Turn::Calls(Call::AtNames(at, capture, variable)))
        }
        Call::AtNames(at, capture, variable) => {
            is_close(token).then_some(Turn::Reads(Atom::At(at, capture, variable)))
        }
    }
}

/// Whether this is `(`.
pub(crate) fn is_open(token: Token) -> bool
    ensures { result ≡ is_open token }
{
    matches!(token, Token::Open)
}

/// Whether this is `)`.
pub(crate) fn is_close(token: Token) -> bool
    ensures { result ≡ is_close token }
{
    matches!(token, Token::Close)
}

// Whether this is `,`.
fn is_comma(token: Token) -> bool
    ensures { result ≡ is_comma token }
{
    matches!(token, Token::Comma)
}

// The name that this token is.
fn name_in(token: Token) -> Option<Word>
    ensures { result ≡ name_in token }
{
    match token {
        Token::Name(word) => Some(word),
        _ => None,
    }
}
