//! The pair of captures that a row of a profile tells of.
ghost use Rattle.std.specs.Prelude.{◌↔◌, IsTrue};
ghost use Rattle.answer_order.specs.Answers.{IsBefore};

use ds_base::ProfileRow;

/// An ordered pair of captures, by their numbers.
#[derive(Drop)]
pub(crate) struct RowPair {
    /// The capture that saw the earlier copies.
    pub(crate) from: u32,
    /// The capture that saw the later copies.
    pub(crate) to: u32,
}

/// Whether the pair is before that of the row.
pub(crate) fn is_before(last: &RowPair, row: &ProfileRow) -> bool
    ensures { IsTrue result ↔ IsBefore last.now row.now }
{
    last.from < row.from || last.from == row.from && last.to < row.to
}
