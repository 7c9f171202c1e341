//! Reads pcapng files (the pcapng specification) in any pieces: sections of both orders of bytes in one file, any
//! number of interfaces, enhanced and simple packets. An `NgReader` is fed pieces of the file, lends its packets
//! one after the other without a copy, names the first malformed place, and drops the bytes that it gave.
//!
//! A kind of block is one file (section, interface, enhanced, simple) and one line of the table in step.rt; blocks
//! of every other kind are passed over by their length. What is promised is said by the definitions of
//! `specs/Good`, and `specs/Reader` ties a reader to the bytes fed and the packets given.
#![tactic(auto)]

mod enhanced;
mod head;
mod interface;
mod options;
mod packet;
mod reader;
mod section;
mod simple;
mod state;
mod step;
#[cfg(test)]
mod tests;
mod times;

pub use packet::{Found, InBlock, NgRecord};
pub use reader::NgReader;
