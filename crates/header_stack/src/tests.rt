//! Packets from outside, and the headers and fields of each kind one by one: the table of fields and the
//! headers are tested here, above their crates, so that each of these is proved once.

mod fields;
mod packets;
mod stacks;
mod transports;
mod tunnels;
