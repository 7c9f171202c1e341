//! A field of one header of a packet.

ghost use Rattle.std.specs.Prelude.{◌<◌, ◌≤◌, length};
ghost use Rattle.field_table.specs.Table.{names_of};

use crate::kind::Kind;

/// A field of one header of a packet.
#[derive(Clone, Copy, Debug, PartialEq, Eq)]
pub struct FieldRef {
    /// The kind of the header.
    pub kind: Kind,
    /// Whether the headers of that kind are counted from the inside, so from the last.
    pub inside: bool,
    /// How many headers of that kind stand before it in that direction, 0 to 15.
    pub steps: u8,
    /// The number of the field in the kind's rows of the table, from 0.
    pub field: u8,
    pub ghost is_near: { steps ≤ 15 },
    pub ghost is_field: { field < length (names_of kind) },
}
