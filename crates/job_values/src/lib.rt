//! What stands in the declaration of a job: its faults, each with the member where it is, and its
//! values of JSON, taken level by level with the first fault of each level.
//! Which members there are, and which rules each has, is the concern of the crate above.
#![tactic(auto)]

mod fault;
mod kinds;
mod law;
mod leaves;
mod member;
mod objects;
mod wides;

pub use fault::{JobFault, JobWhat, ReadJobFault, fault_at};
pub use kinds::{flag, list, number, signed_number, text};
pub use law::{one_expression, one_field};
pub use leaves::{expression_in, field_in};
pub use member::Member;
pub use objects::{needed, no_stray, object};
pub use wides::wide;
