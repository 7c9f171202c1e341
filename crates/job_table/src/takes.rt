//! The alternatives of variables.

use ds_base::ItemList;
use field_table::FieldRef;

/// The alternatives of one variable: 1 to 4 fields, of which the first that a packet has counts.
pub type FieldList = ItemList<FieldRef>;

/// The alternatives of each variable.
pub type TakeList = ItemList<FieldList>;
