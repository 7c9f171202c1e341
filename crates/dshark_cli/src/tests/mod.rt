//! The commands over files in memory, from the words to the report, the fault's line and the status.

mod captures;
mod central;
mod check;
mod clocks;
mod count;
mod faults;
mod harness;
mod pcapng;
mod reports;
mod sample;
mod stack;
