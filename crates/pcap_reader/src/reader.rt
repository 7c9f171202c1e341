//! The reader: bytes come in by `feed`, and records are lent by `next`.
ghost use Rattle.std.specs.Prelude.{◌≡◌, ◌+◌, ◌<◌, ◌≤◌, ◌^◌, ℕ, List, [], ◌++◌, ⊤, length, Option, Some, None, OnOk, OnErr, IfOk, IfErr, IfSome, IfNone, true, false};
ghost use Rattle.std.specs.Borrow.{sem};
ghost use Rattle.pcap_reader.specs.Captured.{Captured};
ghost use Rattle.pcap_reader.specs.Good.{good, is_wanted};
ghost use Rattle.pcap_reader.specs.Reader.{Reader, StandsFor, IsWaiting, bytes_fed, bytes_held, records_given};
ghost use Rattle.pcap_reader.specs.Format.{is_short_header};
ghost use Rattle.pcap_reader.specs.Lent.{captured, IsLawful, Gives, Steps, Advances};

use crate::file::FileReader;
use crate::record::RecordRef;
use ds_base::{Bad, OutOfMemory, Tail};
use pcapng_reader::InBlock;
use std::alloc::Global;
use std::marker::Model;

/// Reads a capture file that is fed in pieces of any length: a pcapng file where its first four bytes are those of
/// a section block, and else a libpcap file (libpcap file format 2.4).
///
/// Feed a piece, call `next` until it answers None, feed the next piece, and so on; at the end of the
/// file call `finish`. Bytes leave memory once their record was given.
#[derive(Drop)]
pub struct PcapReader {
    /// Where memory comes from.
    alloc: Global,
    /// Finds the packets of all interfaces.
    file: FileReader,
    /// The interface whose packets are given. None: those of all.
    wanted: Option<u32>,
    /// How many records were given.
    given: u64,
}

impl Model for PcapReader {
    ghost use Rattle.std.specs.Prelude.{◌≤◌};
    ghost use Rattle.pcap_reader.specs.Reader.{Reader};
    ghost use Rattle.pcap_reader.specs.Files.{packets_given};

    ghost Value = { Reader };

    ghost view = { λ r. record { file = r.file; wanted = r.wanted; given = r.given } };

    ghost invariant = { λ r. r.given ≤ packets_given r.file };
}

impl PcapReader {
    ghost use Rattle.pcap_reader.specs.contracts.reader.PcapReader.{the_row};
    ghost use mathlib.Core.Option.{none};
    ghost use denote.Follow.{follows_so};

    /// A reader of the packets of all interfaces that was fed nothing. It takes no memory; `feed` takes it from
    /// `alloc`.
    pub fn new(alloc: Global) -> Self
        ensures stands { StandsFor None result [] [] }
        ensures all { (good None []).records ≡ [] }
        ensures waiting { IsWaiting result }
        ensures given { records_given result ≡ 0 }
        ensures fed { bytes_fed result ≡ 0 }
        ensures held { bytes_held result ≡ 0 }
    {
        PcapReader::for_interface(alloc, None)
    }

    /// A reader of the packets of this interface, or of all, that was fed nothing. Interfaces are numbered from 0 in
    /// their section of a pcapng file; a libpcap file has the one interface 0.
    #[tactic(auto, unfolding(crate::specs::Good::file_packets, crate::specs::Good::is_pcapng, crate::specs::Libpcap::libpcap_records, crate::specs::Format::header_of))]
    pub fn for_interface(alloc: Global, wanted: Option<u32>) -> Self
        ensures stands { StandsFor wanted result [] [] }
        ensures all { (good wanted []).records ≡ [] }
        ensures waiting { IsWaiting result }
        ensures given { records_given result ≡ 0 }
        ensures fed { bytes_fed result ≡ 0 }
        ensures held { bytes_held result ≡ 0 }
    {
        PcapReader {
            alloc,
            file: FileReader::new(alloc),
            wanted,
            given: 0,
        }
    }

    /// Takes the next piece of the file. Where there is no memory for it, nothing changes.
    pub fn feed(&mut self, piece: &[u8]) -> Result<(), OutOfMemory>
        requires { bytes_fed self.old + length piece.now < 2 ^ 62 }
        ensures stands { OnOk result ((wanted : Option ℕ) (fed : List ℕ) (given : List Captured) →
            StandsFor wanted self.old fed given → StandsFor wanted self.new (fed ++ piece.now) given) }
        ensures given { OnOk result (records_given self.new ≡ records_given self.old) }
        ensures fed { OnOk result (bytes_fed self.new ≡ bytes_fed self.old + length piece.now) }
        ensures held { OnOk result (bytes_held self.new ≤ bytes_held self.old + length piece.now) }
        ensures refused { OnErr result (self.new ≡ self.old) }
    {
        self.file.feed(self.alloc, piece)
    }

    /// The next record of the bytes fed, with its bytes lent. None: they hold no further whole record that is wanted
    /// and no malformed place, or end inside the first header or block of the file; feed more, or call `finish`.
    /// `Bad` is the first malformed place, once the records before it were given; it comes again at each later call.
    pub fn next(&mut self) -> Result<Option<RecordRef<'_>>, Bad>
        ensures lawful { IfOk result (λ o. IfSome o (λ r. IsLawful (captured r))) }
        ensures long { IfErr result (λ b. is_short_header b.what ≡ false) }
        ensures bounded { IfOk result (λ o. IfNone o (bytes_fed self.old < 2 ^ 61)) }
        ensures* after { sem 𝓛 (follows_so the_row the_row self.entry.ghost_name none (λ _ _. ⊤) (λ after. Gives self.old result after)) }
    {
        let number = self.given;
        match self.advance()? {
            Some(found) => {
                let packet = found.packet.lend(self.file.last_block(found.len));
                Ok(Some(RecordRef {
                    number,
                    time: packet.time,
                    link: packet.link,
                    orig: packet.orig,
                    bytes: packet.bytes,
                }))
            }
            None => Ok(None),
        }
    }

    /// Goes on to the next record.
    fn advance(&mut self) -> Result<Option<InBlock>, Bad>
        ensures { Advances self.old result self.new }
    {
        'packets: loop {
            match self.step()? {
                Step::Next(found) => return Ok(Some(found)),
                Step::Other => {}
                Step::End => return Ok(None),
            }
        }
    }

    /// Looks at the next packet of the file.
    fn step(&mut self) -> Result<Step, Bad>
        ensures { Steps self.old result self.new }
    {
        let Some(found) = self.file.find()? else {
            return Ok(Step::End);
        };
        if is_wanted(self.wanted, found.packet.interface) {
            self.given += 1;
            return Ok(Step::Next(found));
        }
        Ok(Step::Other)
    }

    /// What is known at the end of the file: how many records it has that are wanted, and whether it ends inside a
    /// record or a block; or that it ends inside its first header or block.
    pub fn finish(&self) -> Result<Tail, Bad>
        requires { IsWaiting self.now }
        ensures whole { IfOk result (λ t. (wanted : Option ℕ) (fed : List ℕ) (given : List Captured) → StandsFor wanted self.now fed given →
            ((good wanted fed).bad ≡ None) × (t.records ≡ length (good wanted fed).records) × (t.cut ≡ (good wanted fed).cut)) }
        ensures short { IfErr result (λ b. (wanted : Option ℕ) (fed : List ℕ) (given : List Captured) → StandsFor wanted self.now fed given →
            ((good wanted fed).bad ≡ Some b) × (is_short_header b.what ≡ true)) }
    {
        let cut = self.file.finish()?;
        Ok(Tail {
            records: self.given,
            cut,
        })
    }

    /// How many bytes are kept in memory: after `next` answered None at most 262,159 of a libpcap file, and
    /// 16,777,215 of a pcapng file.
    pub fn held(&self) -> u64
        ensures { result ≡ bytes_held self.now }
    {
        self.file.held()
    }
}

/// What a look at the next packet of the file shows.
#[derive(Clone, Copy)]
enum Step {
    /// It is wanted, and was found there.
    Next(InBlock),
    /// It is of another interface.
    Other,
    /// No further whole packet is there.
    End,
}

/// Whether packets of an interface are wanted: all are where none is named.
fn is_wanted(wanted: Option<u32>, interface: u32) -> bool
    ensures { result ≡ is_wanted wanted interface }
{
    match wanted {
        None => true,
        Some(wanted) => interface == wanted,
    }
}
