//! The packets that are lent.
ghost use Rattle.std.specs.Prelude.{◌≡◌, ◌+◌, ◌≤◌, length};
ghost use Rattle.pcapng_reader.specs.Packets.{packet_of};
ghost use Rattle.pcapng_reader.specs.Reader.{lent};

/// How many bytes of a packet are captured at most.
pub(crate) const LONGEST: u32 = 262_144;

/// One packet of a pcapng file. Its bytes are lent by the reader.
#[derive(Clone, Copy, Debug)]
pub struct NgRecord<'a> {
    /// The packet's number among the packet blocks of the file, counted from 0, below 2^40.
    pub number: u64,
    /// Its interface, numbered from 0 in its section.
    pub interface: u32,
    /// The link type of the interface; 1 is Ethernet, 101 raw IP.
    pub link: u32,
    /// How many bytes the packet had, of which some may not have been captured.
    pub orig: u32,
    /// When the packet was captured, in nanoseconds since 1970, below 2^63 - 3,600,000,000,000.
    pub time: u64,
    /// The captured bytes, at most 262,144.
    pub bytes: &'a [u8],
}

/// A packet that was found in a block: what `NgRecord` says of it, and where its bytes lie.
#[derive(Clone, Copy, Debug)]
pub struct Found {
    /// The packet's number among the packet blocks of the file, counted from 0, below 2^40.
    pub number: u64,
    /// Its interface, numbered from 0 in its section.
    pub interface: u32,
    /// The link type of the interface.
    pub link: u32,
    /// How many bytes the packet had.
    pub orig: u32,
    /// When the packet was captured, in nanoseconds since 1970.
    pub time: u64,
    /// Where its bytes begin in the block.
    pub from: usize,
    /// How many there are.
    pub len: usize,
}

/// A block that was read.
#[derive(Clone, Copy, Debug)]
pub(crate) struct Passed {
    /// How long it is.
    pub(crate) len: usize,
    /// The packet that was found in it.
    pub(crate) found: Option<Found>,
}

/// A packet in a block that was read.
#[derive(Clone, Copy, Debug)]
pub struct InBlock {
    /// How long the block is.
    pub len: usize,
    /// The packet.
    pub packet: Found,
}

impl Found {
    /// The packet with its bytes, which lie in the block.
    pub fn lend(self, block: &[u8]) -> NgRecord<'_>
        requires { self.from + self.len ≤ length block.now }
        ensures { lent result ≡ packet_of self block.now }
    {
        NgRecord {
            number: self.number,
            interface: self.interface,
            link: self.link,
            orig: self.orig,
            time: self.time,
            bytes: &block[self.from..self.from + self.len],
        }
    }
}
