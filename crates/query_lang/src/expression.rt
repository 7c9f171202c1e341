//! What an expression is.

use query_tokens::Operator;

/// What an expression reads of the summary or the group that it is evaluated over. Variables and
/// captures are their numbers among the names that the text was parsed with.
#[derive(Clone, Copy, Debug, PartialEq, Eq)]
pub enum Term {
    /// The summary's value of a variable.
    Variable(u32),
    /// The summary's time, in nanoseconds.
    Time,
    /// The number of the summary's capture.
    Capture,
    /// How many members the group has.
    Count,
    /// The last member's time minus the first's, in nanoseconds.
    Span,
    /// How many members are of a capture.
    Seen(u32),
    /// The first member's value of a variable.
    First(u32),
    /// The last member's value of a variable.
    Last(u32),
    /// The least value of a variable.
    Min(u32),
    /// The greatest value of a variable.
    Max(u32),
    /// How many different values a variable has.
    Distinct(u32),
    /// The value of a variable in the first member of a capture.
    At { capture: u32, variable: u32 },
}

/// An expression. It is at most as deep as its text is long.
#[derive(Debug, Drop)]
pub enum Expr {
    Number(u128),
    Read(Term),
    /// 1 where the inner expression is 0, and 0 where it is another number.
    Not(Box<Expr>),
    Binary(Operator, Box<Expr>, Box<Expr>),
}
