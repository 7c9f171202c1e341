//! What is known of the times that are still to come: each capture has a mark below which none of its
//! summaries comes any more, and the least mark of the captures that have not ended is the bound
//! below which none comes at all.
#![tactic(auto)]

mod least;
mod marks;
mod slots;

pub use marks::Marks;

#[cfg(test)]
mod tests;
