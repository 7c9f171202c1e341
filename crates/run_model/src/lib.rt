//! A model of a run, by which the laws of run_law are held to examples: the real parts of the nodes (the reader and
//! the tally of a parser, the grouper, the state of a query processor) over plain lists of frames, in turns drawn
//! from a seed. It is tests alone, and nothing stands on it.
#![tactic(auto)]

#[cfg(test)]
mod tests;
