//! A list of summaries that takes eight bytes a word: two words for the stamp of a summary, and one or two
//! for each of its values, by how wide the job's fields are. Contracts see the list of the summaries; the
//! key is read from the values and lies in memory nowhere.
#![tactic(auto)]

mod fits;
mod lean_list;
mod packed_list;
mod packing;
mod row;

pub use lean_list::LeanList;
pub use packed_list::PackedList;
pub use packing::Packing;
