//! Runs of the merge alone: it is fed over rings by plain senders, in orders and cuts drawn from a seed, and its watched sink
//! is compared after each turn with what the plain program makes of the same input. It is tests alone, and nothing stands
//! on it.
#![tactic(auto)]

#[cfg(test)]
mod captures;
#[cfg(test)]
mod draws;
#[cfg(test)]
mod due;
#[cfg(test)]
mod feeders;
#[cfg(test)]
mod refusals;
#[cfg(test)]
mod runs;
#[cfg(test)]
mod scripts;
#[cfg(test)]
mod sinks;
#[cfg(test)]
mod tests;
