//! The number of a field, read from the bytes of its header.

ghost use Rattle.std.specs.Prelude.{◌≡◌, ◌<◌, length, Some, slice_get};
ghost use Rattle.field_table.specs.Bits.{number_of_bits};
ghost use Rattle.field_table.specs.Fields.{first_bit, value_of};
ghost use Rattle.field_table.specs.Table.{layouts_of, names_of};

use crate::bits::bits_at;
use crate::kind::Kind;
use crate::layout::{Layout, Start};
use crate::table::rows;

/// The number of a field in the bytes of one header of its kind. None where its bits do not all lie
/// in the bytes, and for an optional field of GRE whose bit is not set. It reads the bytes that hold
/// the field, and takes no memory.
pub fn value(kind: Kind, field: u8, slice: &[u8]) -> Option<u128>
    requires { field < length (names_of kind) }
    ensures { result ≡ value_of kind field slice.now }
{
    let layout = layout(kind, field);
    let first = first_bit(layout.start, slice)?;
    let end = (first as usize + layout.bits as usize + 7) / 8;
    if slice.len() < end {
        return None;
    }
    Some(bits_at(slice, first, layout.bits))
}

/// The layout of a field.
pub(crate) fn layout(kind: Kind, field: u8) -> Layout
    requires { field < length (names_of kind) }
    ensures { slice_get (layouts_of kind) field ≡ Some result }
{
    rows(kind)[field as usize].1
}

/// The first bit of a field in these bytes of a header.
#[tactic(auto, unfolding(crate::specs::Fields::first_bit))]
fn first_bit(start: Start, slice: &[u8]) -> Option<u16>
    ensures { result ≡ first_bit start slice.now }
{
    match start {
        Start::At(first) => Some(first),
        Start::Checksum if bit_at(slice, 0) == 1 => Some(32),
        Start::Key if bit_at(slice, 2) == 1 => Some(32 + 32 * bit_at(slice, 0)),
        Start::Sequence if bit_at(slice, 3) == 1 => {
            Some(32 + 32 * bit_at(slice, 0) + 32 * bit_at(slice, 2))
        }
        _ => None,
    }
}

/// A bit of the first byte, 0 where there is none.
#[tactic(auto, using(crate::proofs::ValueLemmas::one_bit, crate::proofs::ValueLemmas::no_bit))]
fn bit_at(slice: &[u8], bit: u16) -> u16
    requires { bit < 8 }
    ensures number { result ≡ number_of_bits slice.now bit 1 }
    ensures one { result < 2 }
{
    if slice.is_empty() {
        0
    } else {
        bits_at(slice, bit, 1) as u16
    }
}
