//! Runs of whole pipelines over captures in memory, in turns and cuts drawn from a seed, whose reports are compared with
//! what the plain program makes of the same captures. It is tests alone, and nothing stands on it.
#![tactic(auto)]

#[cfg(test)]
mod tests;
