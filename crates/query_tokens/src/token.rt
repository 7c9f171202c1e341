//! What a token is.

/// An operator between two operands.
#[derive(Clone, Copy, Debug, PartialEq, Eq)]
pub enum Operator {
    /// `||`
    Or,
    /// `&&`
    And,
    /// `==`
    Equal,
    /// `!=`
    NotEqual,
    /// `<=`
    AtMost,
    /// `>=`
    AtLeast,
    /// `<`
    Less,
    /// `>`
    Greater,
    /// `+`
    Plus,
    /// `-`
    Minus,
    /// `*`
    Times,
    /// `/`
    Divide,
    /// `%`
    Remainder,
    /// `&`
    BitAnd,
}

/// A part of a summary's stamp, named by a reserved word.
#[derive(Clone, Copy, Debug, PartialEq, Eq)]
pub enum Part {
    Time,
    Capture,
}

/// A measure of a whole group, named by a reserved word and called with no name.
#[derive(Clone, Copy, Debug, PartialEq, Eq)]
pub enum Measure {
    Count,
    Span,
}

/// What a call with one name takes from a group: `seen` of a capture, the others of a variable.
#[derive(Clone, Copy, Debug, PartialEq, Eq)]
pub enum Pick {
    Seen,
    First,
    Last,
    Min,
    Max,
    Distinct,
}

/// A name in a text: the place of its first byte, and its length in bytes.
#[derive(Clone, Copy, Debug, PartialEq, Eq)]
pub struct Word {
    pub at: u32,
    pub len: u32,
}

/// A token. Those that begin with a letter or `_` know the place of their first byte.
#[derive(Clone, Copy, Debug, PartialEq, Eq)]
pub enum Token {
    Number(u128),
    /// A word that is not reserved.
    Name(Word),
    /// `time` or `capture`.
    Stamp(Part, u32),
    /// `count` or `span`.
    Whole(Measure, u32),
    /// `seen`, `first`, `last`, `min`, `max` or `distinct`.
    Of(Pick, u32),
    /// `at`
    At(u32),
    /// `not`
    Not(u32),
    Between(Operator),
    /// `(`
    Open,
    /// `)`
    Close,
    /// `,`
    Comma,
}
