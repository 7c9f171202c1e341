//! The form of a field.

/// How the number of a field is printed.
#[derive(Clone, Copy, Debug, PartialEq, Eq)]
pub enum Form {
    /// Decimal.
    Dec,
    /// `0x` and lower-case hexadecimal digits without leading zeros.
    Hex,
    /// Six pairs of lower-case hexadecimal digits with `:` between them.
    Mac,
    /// Four decimal numbers with `.` between them.
    Addr4,
    /// Eight groups of four lower-case hexadecimal digits with `:` between them, never shortened.
    Addr6,
}
