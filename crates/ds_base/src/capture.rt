//! What is known of a capture file: its faults, its end, and how its records fared.

use thiserror::Error;

/// What is wrong with a capture file (libpcap file format 2.4).
#[derive(Clone, Copy, Debug, PartialEq, Eq, Error)]
pub enum PcapFault {
    /// The file is a pcapng file.
    #[error("a pcapng file")]
    PcapNg,
    /// The first four bytes are no magic number of a capture file.
    #[error("no capture file")]
    Magic,
    /// The file ends inside its header; `len` is the file's length in bytes.
    #[error("the file ends inside its header, after {len} bytes")]
    ShortHeader { len: u64 },
    /// The version is not 2.4.
    #[error("version {major}.{minor} is not 2.4")]
    Version { major: u16, minor: u16 },
    /// The link type word is neither Ethernet (1) nor raw IP (101).
    #[error("link type {word} is neither Ethernet (1) nor raw IP (101)")]
    LinkType { word: u32 },
    /// Record `number` says that it captured more than 262,144 bytes.
    #[error("record {number} has {len} captured bytes, more than 262144")]
    TooLong { number: u64, len: u32 },
    /// More than 2^40 records, or more than 2^36 blocks of a pcapng file.
    #[error("more records than are read")]
    TooMany,
    /// A block of a pcapng file has a total length that its type cannot have.
    #[error("no block of its type has {len} bytes")]
    NgLength { len: u32 },
    /// The last length of a block differs from its first.
    #[error("the block ends with another length, {tail}")]
    NgTail { tail: u32 },
    /// A packet is of an interface that no block of its section describes.
    #[error("interface {id} is not described")]
    NgInterface { id: u32 },
    /// The bytes of packet block `number`, padded, do not fit into the block.
    #[error("the {len} bytes of packet {number} do not fit into its block")]
    NgPacket { number: u64, len: u32 },
    /// The resolution of an interface is finer than can be.
    #[error("no interface has the resolution {r}")]
    NgResolution { r: u8 },
    /// The time of packet block `number` is before 1970, or an hour before 2^63 nanoseconds or later.
    #[error("the time of packet {number} is out of range")]
    NgTime { number: u64 },
}

/// The first malformed place of a capture file: a byte's number from 0, and what is wrong there.
#[derive(Clone, Copy, Debug, PartialEq, Eq, Error)]
#[error("at byte {at}: {what}")]
pub struct Bad {
    pub at: u64,
    pub what: PcapFault,
}

/// What is known of a capture file at its end.
#[derive(Clone, Copy, Debug, PartialEq, Eq)]
pub struct Tail {
    /// How many whole records it has.
    pub records: u64,
    /// Whether bytes of an unfinished record are left.
    pub cut: bool,
}

/// How the records of one capture fared.
#[derive(Clone, Copy, Debug, PartialEq, Eq)]
pub struct Counts {
    /// All whole records.
    pub records: u64,
    /// Those that give no summary.
    pub unmatched: u64,
    /// Those whose summary came too late.
    pub late: u64,
    /// All others.
    pub accepted: u64,
    /// Whether the file ends inside a record.
    pub cut: bool,
}
