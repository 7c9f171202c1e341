//! The judge of what changes between two captures: whether each packet that goes straight from the one
//! to the other keeps the rules on its values. It answers its verdict for any group, in time linear in
//! the group, and takes no memory.
#![tactic(auto)]

mod rewrite;
mod rule;

pub use rewrite::judge_rewrite;
pub use rule::{How, PairList, Rule, RuleList};

#[cfg(test)]
mod tests;
