//! The reader of a file of either format. The first four bytes decide which it is.
ghost use Rattle.std.specs.Prelude.{◌≡◌, ◌+◌, ◌<◌, ◌≤◌, ◌^◌, ◌++◌, ℕ, List, [], length, None, Some, OnOk, OnErr, IfOk, IfErr, true};
ghost use Rattle.pcapng_reader.specs.Packet.{Packet};
ghost use Rattle.pcapng_reader.specs.Reader as ng;
ghost use Rattle.pcap_reader.specs.Captured.{block_behind};
ghost use Rattle.pcap_reader.specs.Format.{is_short_header};
ghost use Rattle.pcap_reader.specs.Good.{file_packets, file_bad, file_cut};
ghost use Rattle.pcap_reader.specs.LibpcapReader as libpcap;
ghost use Rattle.pcap_reader.specs.Files.{Holds, Waits, Finds, turns, fed_to, held_in, spent_in, packets_given};

use crate::libpcap::LibpcapReader;
use crate::section::begins_section;
use ds_base::{Bad, OutOfMemory};
use pcapng_reader::{InBlock, NgReader};
use std::alloc::Global;

/// Reads a file of either format, and finds the packets of all interfaces.
#[derive(Drop)]
pub(crate) enum FileReader {
    /// A libpcap file; or fewer than four bytes were fed, of which both formats say the same.
    Libpcap(LibpcapReader),
    /// A pcapng file.
    Ng(NgReader),
}

impl FileReader {
    /// A reader that was fed nothing. It takes no memory.
    #[tactic(auto, unfolding(crate::specs::Good::is_pcapng))]
    pub(crate) fn new(alloc: Global) -> Self
        ensures holds { Holds result [] [] }
        ensures waiting { Waits result }
        ensures given { packets_given result ≡ 0 }
        ensures fed { fed_to result ≡ 0 }
        ensures held { held_in result ≡ 0 }
    {
        FileReader::Libpcap(LibpcapReader::new(alloc))
    }

    /// Takes the next piece of the file, with which it may turn out to be a pcapng file. Where there is no memory
    /// for it, nothing changes.
    pub(crate) fn feed(&mut self, alloc: Global, piece: &[u8]) -> Result<(), OutOfMemory>
        requires { fed_to self.old + length piece.now < 2 ^ 62 }
        ensures holds { OnOk result ((fed : List ℕ) (all : List Packet) → Holds self.old fed all → Holds self.new (fed ++ piece.now) all) }
        ensures given { OnOk result (packets_given self.new ≡ packets_given self.old) }
        ensures fed { OnOk result (fed_to self.new ≡ fed_to self.old + length piece.now) }
        ensures held { OnOk result (held_in self.new ≤ held_in self.old + length piece.now) }
        ensures refused { OnErr result (self.new ≡ self.old) }
    {
        match self {
            FileReader::Libpcap(reader) => {
                if turns(reader, piece) {
                    let turned = begin_ng(alloc, reader.rest(), piece)?;
                    *self = FileReader::Ng(turned);
                    Ok(())
                } else {
                    reader.feed(piece)
                }
            }
            FileReader::Ng(reader) => reader.feed(piece),
        }
    }

    /// Goes on to the next packet, and tells where it lies in the block that was read last.
    pub(crate) fn find(&mut self) -> Result<Option<InBlock>, Bad>
        ensures { Finds self.old result self.new }
    {
        match self {
            FileReader::Libpcap(reader) => reader.find(),
            FileReader::Ng(reader) => reader.advance(),
        }
    }

    /// The last `len` bytes that were read.
    pub(crate) fn last_block(&self, len: usize) -> &[u8]
        requires { len ≤ length (spent_in self.now) }
        ensures { result.now ≡ block_behind len (spent_in self.now) }
    {
        match self {
            FileReader::Libpcap(reader) => reader.last_block(len),
            FileReader::Ng(reader) => reader.last_block(len),
        }
    }

    /// Whether the file ends inside a record or a block, at its end; or that it is too short for its header.
    pub(crate) fn finish(&self) -> Result<bool, Bad>
        requires { Waits self.now }
        ensures whole { IfOk result (λ cut. (fed : List ℕ) (all : List Packet) → Holds self.now fed all →
            (file_packets fed ≡ all) × (file_bad fed ≡ None) × (cut ≡ file_cut fed)) }
        ensures short { IfErr result (λ b. (fed : List ℕ) (all : List Packet) → Holds self.now fed all →
            (file_bad fed ≡ Some b) × (is_short_header b.what ≡ true)) }
    {
        let tail = match self {
            FileReader::Libpcap(reader) => reader.finish()?,
            FileReader::Ng(reader) => reader.finish()?,
        };
        Ok(tail.cut)
    }

    /// How many bytes are kept in memory.
    pub(crate) fn held(&self) -> u64
        ensures { result ≡ held_in self.now }
    {
        match self {
            FileReader::Libpcap(reader) => reader.held(),
            FileReader::Ng(reader) => reader.held(),
        }
    }
}

/// Whether the file is a pcapng file, which shows with this piece.
fn turns(reader: &LibpcapReader, piece: &[u8]) -> bool
    ensures value { result ≡ turns reader.now piece.now }
    ensures unread { libpcap.bytes_fed reader.now < 4 → (reader.now.format ≡ None) × (reader.now.place ≡ 0) × (reader.now.count ≡ 0) }
{
    reader.fed() < 4 && begins_section(reader.rest(), piece)
}

/// A reader of a pcapng file to which these bytes and then the piece were fed.
fn begin_ng(alloc: Global, front: &[u8], piece: &[u8]) -> Result<NgReader, OutOfMemory>
    requires { length front.now + length piece.now < 2 ^ 62 }
    ensures stands { IfOk result (λ reader. ng.StandsFor reader (front.now ++ piece.now) []) }
    ensures given { IfOk result (λ reader. ng.packets_given reader ≡ 0) }
    ensures fed { IfOk result (λ reader. ng.bytes_fed reader ≡ length front.now + length piece.now) }
    ensures held { IfOk result (λ reader. ng.bytes_held reader ≤ length front.now + length piece.now) }
{
    let mut reader = NgReader::new(alloc);
    reader.feed(front)?;
    reader.feed(piece)?;
    Ok(reader)
}
