//! What a syntax tree is.

use query_tokens::{Measure, Operator, Part, Pick, Word};

/// A part of an expression that holds no other: a number, a name, a reserved word or a call. Each
/// reserved word has its place.
#[derive(Clone, Copy, Debug, PartialEq, Eq)]
pub enum Atom {
    Number(u128),
    Name(Word),
    /// `time` or `capture`
    Stamp(Part, u32),
    /// `count()` or `span()`
    Whole(Measure, u32),
    /// `seen(name)`, `first(name)` and the like
    Of(Pick, u32, Word),
    /// `at(name, name)`
    At(u32, Word, Word),
}

/// A syntax tree. It is at most as deep as its text has tokens.
#[derive(Debug, Drop)]
pub enum Syntax {
    Leaf(Atom),
    /// `(` and `)` around an expression
    Parenthesis(Box<Syntax>),
    /// `not` at this place, and its expression in parentheses
    Negated(u32, Box<Syntax>),
    Joined(Operator, Box<Syntax>, Box<Syntax>),
}
