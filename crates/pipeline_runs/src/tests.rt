//! Runs over captures in memory.
mod captures;
mod drawn;
mod ends;
mod rows;
mod runs;
