//! The kinds of header that a packet may have, the fields of each kind, and the text by which a
//! field is named. The number of a field in a header's bytes, and that number printed in the
//! field's form. src/table.rt has the fields, and is held to specs/Table: a new row goes into both.
#![tactic(auto)]

// Kinds, and what is read of a header.
mod head;
mod kind;
mod next_kinds;

// The table of fields, and the number of a field.
mod bits;
mod forms;
mod layout;
mod table;
mod values;

// The texts of fields and numbers.
mod field_ref;
mod fields;
mod hex;
mod names;
mod printing;
mod reading;

pub use field_ref::FieldRef;
pub use fields::{field, form};
pub use forms::Form;
pub use head::{Head, Next};
pub use kind::Kind;
pub use names::kind_name;
pub use next_kinds::{kind_by_ethernet_type, kind_by_next_header, kind_by_protocol};
pub use printing::{print_field, print_value};
pub use values::value;
