//! The headers of a packet, from its first byte inwards: which kinds follow one another, and where each
//! begins and ends. The n-th header of a kind, and the value of a field of it. The one dispatch from a
//! kind to the call that reads it stands here.
#![tactic(auto)]

// One header, of any kind.
mod headers;

// Where the headers of a packet stand.
mod packet;
mod place;
mod stack;

// A header and a field among them.
mod nth;
#[cfg(test)]
mod tests;
mod value;

pub use packet::{one_stack, walk};
pub use place::{Place, header};
pub use stack::Stack;
pub use value::field_value;
