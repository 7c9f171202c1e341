//! Runs of single nodes: each is fed over rings by plain senders, in orders and cuts drawn from a seed, and what it puts is
//! compared with what the plain programs make of the same input. It is tests alone, and nothing stands on it.
#![tactic(auto)]

#[cfg(test)]
mod draws;
#[cfg(test)]
mod groupers;
#[cfg(test)]
mod links;
#[cfg(test)]
mod parsers;
#[cfg(test)]
mod processors;
#[cfg(test)]
mod summaries;
#[cfg(test)]
mod turns;
