//! The table of the members of a declaration: a function a row, which gives the value that JSON has
//! there, or the row's first fault. A row is a definition in specs/Table or specs/QueryTable, in the
//! same order. The crate above puts the rows together to a job.
#![tactic(auto)]

// What rows are made of, and what they give.
mod capture_lists;
mod kinds;
mod rules;
mod takes;

// The rows, in the order of the table.
mod capture_rows;
mod clock_rows;
mod filters;
mod interface_row;
mod numbers;
mod scalars;
mod variable_rows;

// The rows of the query.
mod patterns;
mod queries;
mod rewrites;

pub use capture_lists::{CaptureLists, InterfaceList, OffsetList, OwnSkewList, SkewList};
pub use capture_rows::captures;
pub use clock_rows::skews;
pub use filters::filter;
pub use kinds::Query;
pub use numbers::key;
pub use queries::query;
pub use rules::{copied, put};
pub use scalars::{profile, skew, version, vxlan_port, window};
pub use takes::{FieldList, TakeList};
pub use variable_rows::vars;
