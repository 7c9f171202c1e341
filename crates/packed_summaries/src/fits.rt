//! Whether a row can hold a summary.

ghost use Rattle.std.specs.Prelude.{◌≡◌, ◌↔◌, IsTrue};
ghost use Rattle.packed_summaries.specs.Rows.{Fits, HasWidth, HaveWidths};

use crate::packing::Packing;
use crate::row::key_of;
use ds_base::{Nums, Summary};

/// Whether a row of this packing can hold the summary.
pub(crate) fn fits(packing: &Packing, s: &Summary) -> bool
    ensures { IsTrue result ↔ Fits packing.now s.now }
{
    if s.at.capture >= 1 << 24 {
        return false;
    }
    if s.at.number >= 1 << 40 {
        return false;
    }
    if !have_widths(packing, &s.vals) {
        return false;
    }
    let key = key_of(packing, &s.vals);
    same_numbers(key.as_slice(), s.key.as_slice())
}

/// Whether two lists have the same numbers.
fn same_numbers(first: &[u128], second: &[u128]) -> bool
    ensures { IsTrue result ↔ (first.now ≡ second.now) }
{
    first == second
}

/// Whether there is a value for each variable, and each goes into its words.
fn have_widths(packing: &Packing, vals: &Nums) -> bool
    ensures { IsTrue result ↔ HaveWidths packing.now.wide vals.now }
{
    let many = packing.variables();
    if vals.len() != many {
        return false;
    }
    for variable in 0..many {
        let column = packing.column(variable);
        if !has_width(column.wide, vals.get(variable)) {
            return false;
        }
    }
    true
}

/// Whether a value goes into its words.
fn has_width(wide: bool, n: u128) -> bool
    ensures { IsTrue result ↔ HasWidth wide n }
{
    wide || n < 1 << 64
}
