//! Gathers the copies of one packet: the summaries of a list that have one key and lie within one
//! window of time. `OpenGroups` gives the groups of a list out one after another, in the order of
//! their firsts' stamps; `Grouper` takes summaries in any order that the marks of captures allow; and
//! `central` is the plain program, which gives all groups of a list at once. The test
//! `any_arrival_gives_the_groups_of_the_list` runs both on one list. The laws say that no other list of
//! groups would do.
#![tactic(auto)]

mod grouper;
mod laws;
mod newest;
mod open_groups;
mod order;
mod placing;
mod whole_list;

pub use grouper::Grouper;
pub use laws::{
    all_grouped, closed_in_front, closed_stay, held_once, one_cut, one_grouping, shard_groups,
    stamps_apart,
};
pub use open_groups::OpenGroups;
pub use order::{is_in_stamp_order, one_order, stamp_order};
pub use whole_list::central;

#[cfg(test)]
mod tests;
