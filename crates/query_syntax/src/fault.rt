//! The faults of a text.

use ds_base::OutOfMemory;
use thiserror::Error;

/// What is wrong with an expression's text. At one place the first in this order is told.
#[derive(Clone, Copy, Debug, PartialEq, Eq, Error)]
pub enum QueryWhat {
    /// No token begins here, or the token has no lawful form.
    #[error("no token begins here")]
    Token,
    /// A `(` that makes 33 open.
    #[error("more than 32 parentheses are open")]
    Deep,
    /// The tokens before this one begin some expression, and with it they begin none. At the text's
    /// end: the tokens begin an expression and are none.
    #[error("no expression goes on so")]
    Syntax,
    /// A word that the scope does not allow here. It is told only where nothing else is wrong.
    #[error("this word may not stand here")]
    Name,
}

/// The first fault of an expression's text: the number of a byte from 0, and what is wrong there.
#[derive(Clone, Copy, Debug, PartialEq, Eq, Error)]
#[error("at byte {at}: {what}")]
pub struct QueryFault {
    pub at: u32,
    pub what: QueryWhat,
}

/// Why a text gave no expression.
#[derive(Clone, Copy, Debug, PartialEq, Eq, Error)]
pub enum ParseFault {
    /// The text's first fault.
    #[error("{0}")]
    Bad(QueryFault),
    /// There was no memory.
    #[error("out of memory")]
    OutOfMemory,
}

impl From<OutOfMemory> for ParseFault {
    ghost use Rattle.std.specs.Prelude.{◌≡◌};
    ghost use Rattle.query_syntax.specs.declared.fault.ParseFault.TheVariants as fault;

    ghost from_gives = { λ _ e. e ≡ fault.OutOfMemory };

    fn from(_: OutOfMemory) -> ParseFault {
        ParseFault::OutOfMemory
    }
}
