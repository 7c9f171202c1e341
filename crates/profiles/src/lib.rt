//! How long packets take between capture points: for each ordered pair of captures the number of
//! delays, their sum, the least, the greatest and how many have each number of binary digits. A
//! profile grows by groups, by single rows and by other profiles, in any order.
#![tactic(auto)]

mod laws;
mod profile;
mod row;
mod rows;
#[cfg(test)]
mod tests;

pub use laws::{few_delays, in_any_order, least_class, one_profile, row_by_row, within_window};
pub use profile::Profile;
