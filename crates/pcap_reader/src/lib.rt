//! Reads capture files in any pieces. A pcapng file is one whose first four bytes are those of a section block,
//! which pcapng_reader reads; every other is a libpcap file (libpcap file format 2.4): both byte orders, microseconds
//! and nanoseconds, Ethernet and raw IP. A `PcapReader` is fed pieces of the file, lends its records one after the
//! other without a copy, those of one interface or of all, names the first malformed place, and drops the bytes that
//! it gave.
//!
//! For a libpcap file that is in memory whole and whose records are not wanted, `check_file` is enough. What is
//! promised is said by `specs/Good` for both formats, and by `specs/Libpcap` for the records of libpcap: a record is
//! its slice of the file, and its numbers are read from the slice. A reader's value in contracts is `specs/Reader`'s
//! `Reader`, and `StandsFor` ties it to the bytes fed and the records given.
#![tactic(auto)]

mod check;
mod file;
mod format;
mod laws;
mod libpcap;
mod reader;
mod record;
mod section;
#[cfg(test)]
mod tests;

pub use check::check_file;
pub use laws::{given_are_first, numbered, one_reading};
pub use reader::PcapReader;
pub use record::RecordRef;
pub use section::is_pcapng;
