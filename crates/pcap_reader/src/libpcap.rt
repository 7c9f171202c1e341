//! The reader of a libpcap file: bytes come in by `feed`, and records are found in them.
ghost use Rattle.std.specs.Prelude.{◌≡◌, ◌+◌, ◌-◌, ◌<◌, ◌≤◌, ◌^◌, ℕ, List, [], ◌++◌, length, drop, Some, None, OnOk, OnErr, IfOk, IfErr, true};
ghost use Rattle.pcap_reader.specs.Captured.{Captured, block_behind};
ghost use Rattle.pcap_reader.specs.Libpcap.{libpcap_records, libpcap_bad, libpcap_cut};
ghost use Rattle.pcap_reader.specs.LibpcapReader.{Reader, StandsFor, IsWaiting, bytes_fed, bytes_held, records_given};
ghost use Rattle.pcap_reader.specs.Format.{is_short_header};
ghost use Rattle.pcap_reader.specs.LibpcapSteps.{Opens, Advances, FindsRecord};

use crate::format::{Format, front, is_short, read_header};
use crate::record::{FoundRecord, HEADER, find_record, read_record};
use capture_bytes::Buffer;
use ds_base::{Bad, OutOfMemory, PcapFault, Tail};
use pcapng_reader::{Found, InBlock};
use std::alloc::Global;
use std::marker::Model;

/// Reads a libpcap file (libpcap file format 2.4) that is fed in pieces of any length.
#[derive(Drop)]
pub(crate) struct LibpcapReader {
    /// The bytes that were fed and not yet read, after those of the record that was lent last.
    bytes: Buffer,
    /// Where in the file the bytes begin that were not yet read.
    place: u64,
    /// How many records were given.
    count: u64,
    /// What the file header says, once it was read.
    format: Option<Format>,
}

impl Model for LibpcapReader {
    ghost use Rattle.std.specs.Prelude.{◌<◌, ◌+◌, ◌^◌, length};
    ghost use Rattle.pcap_reader.specs.LibpcapReader.{Reader};

    ghost Value = { Reader };

    ghost view = { λ r. record { format = r.format; count = r.count; place = r.place; rest = r.bytes.rest; spent = r.bytes.spent } };

    ghost use Rattle.pcap_reader.specs.LibpcapReader.{HasLawfulLink, IsBounded};

    ghost invariant = { λ r. (r.place + length r.bytes.rest < 2 ^ 62) × HasLawfulLink r.format × IsBounded r.format r.count r.place };
}

impl LibpcapReader {
    /// A reader that was fed nothing. It takes no memory; `feed` takes it from `alloc`.
    #[tactic(auto, unfolding(crate::specs::Format::header_of, crate::specs::Libpcap::libpcap_records))]
    pub(crate) fn new(alloc: Global) -> Self
        ensures stands { StandsFor result [] [] }
        ensures all { libpcap_records [] ≡ [] }
        ensures waiting { IsWaiting result }
        ensures given { records_given result ≡ 0 }
        ensures fed { bytes_fed result ≡ 0 }
        ensures held { bytes_held result ≡ 0 }
    {
        LibpcapReader {
            bytes: Buffer::new(alloc),
            place: 0,
            count: 0,
            format: None,
        }
    }

    /// Takes the next piece of the file. Where there is no memory for it, nothing changes.
    pub(crate) fn feed(&mut self, piece: &[u8]) -> Result<(), OutOfMemory>
        requires { bytes_fed self.old + length piece.now < 2 ^ 62 }
        ensures stands { OnOk result ((fed : List ℕ) (given : List Captured) →
            StandsFor self.old fed given → StandsFor self.new (fed ++ piece.now) given) }
        ensures given { OnOk result (records_given self.new ≡ records_given self.old) }
        ensures fed { OnOk result (bytes_fed self.new ≡ bytes_fed self.old + length piece.now) }
        ensures held { OnOk result (bytes_held self.new ≤ bytes_held self.old + length piece.now) }
        ensures refused { OnErr result (self.new ≡ self.old) }
    {
        self.bytes.append(piece)
    }

    /// Goes on to the next record, and tells where it lies in the bytes that were used up. None: the bytes fed hold
    /// no further whole record and no malformed place, or end inside the file header. `Bad` is the first malformed
    /// place, once the records before it were given; it comes again at each later call.
    pub(crate) fn find(&mut self) -> Result<Option<InBlock>, Bad>
        ensures { FindsRecord self.old result self.new }
    {
        let Some(found) = self.advance()? else {
            return Ok(None);
        };
        let slice = self.bytes.last_spent(found.len);
        let record = read_record(found.format, found.number, slice);
        Ok(Some(InBlock {
            len: found.len,
            packet: Found {
                number: record.number,
                interface: 0,
                link: record.link,
                orig: record.orig,
                time: record.time,
                from: HEADER,
                len: record.bytes.len(),
            },
        }))
    }

    /// Goes on to the next record, and drops what was used up where there is none.
    fn advance(&mut self) -> Result<Option<FoundRecord>, Bad>
        ensures { Advances self.old result self.new }
    {
        let Some(format) = self.open()? else {
            self.bytes.drop_spent();
            return Ok(None);
        };
        let number = self.count;
        match find_record(format, number, self.place, self.bytes.rest())? {
            Some(len) => {
                self.bytes.spend(len);
                self.place += len as u64;
                self.count += 1;
                Ok(Some(FoundRecord {
                    format,
                    number,
                    len,
                }))
            }
            None => {
                self.bytes.drop_spent();
                Ok(None)
            }
        }
    }

    /// Reads the file header where that was not done. None: the bytes fed end inside it.
    fn open(&mut self) -> Result<Option<Format>, Bad>
        ensures { Opens self.old result self.new }
    {
        if let Some(format) = self.format {
            return Ok(Some(format));
        }
        match read_header(front(self.bytes.rest(), 24)) {
            Ok(format) => {
                self.bytes.spend(24);
                self.place += 24;
                self.format = Some(format);
                Ok(Some(format))
            }
            Err(bad) => {
                if is_short(bad.what) {
                    Ok(None)
                } else {
                    Err(bad)
                }
            }
        }
    }

    /// What is known at the end of the file: how many records it has, and whether it ends inside one; or
    /// that it ends inside its header.
    pub(crate) fn finish(&self) -> Result<Tail, Bad>
        requires { IsWaiting self.now }
        ensures whole { IfOk result (λ t. (fed : List ℕ) (given : List Captured) → StandsFor self.now fed given →
            (libpcap_bad fed ≡ None) × (t.records ≡ length (libpcap_records fed)) × (t.cut ≡ libpcap_cut fed)) }
        ensures short { IfErr result (λ b. (fed : List ℕ) (given : List Captured) → StandsFor self.now fed given →
            (libpcap_bad fed ≡ Some b) × (is_short_header b.what ≡ true)) }
    {
        match self.format {
            Some(_) => Ok(Tail {
                records: self.count,
                cut: !self.bytes.rest().is_empty(),
            }),
            None => {
                let len = self.bytes.rest().len() as u64;
                Err(Bad {
                    at: len,
                    what: PcapFault::ShortHeader { len },
                })
            }
        }
    }

    /// How many bytes were fed. As long as there are fewer than 24 of them nothing was read.
    pub(crate) fn fed(&self) -> u64
        ensures value { result ≡ bytes_fed self.now }
        ensures unread { result < 24 → (self.now.format ≡ None) × (self.now.place ≡ 0) × (self.now.count ≡ 0) }
    {
        self.place + self.bytes.rest().len() as u64
    }

    /// The bytes that were fed and not yet read.
    pub(crate) fn rest(&self) -> &[u8]
        ensures { result.now ≡ self.now.rest }
    {
        self.bytes.rest()
    }

    /// The last `len` of the bytes that were used up: the record that was found last, if it has that length.
    pub(crate) fn last_block(&self, len: usize) -> &[u8]
        requires { len ≤ length self.now.spent }
        ensures { result.now ≡ block_behind len self.now.spent }
    {
        self.bytes.last_spent(len)
    }

    /// How many bytes are kept in memory: at most 262,159 after `find` answered None.
    pub(crate) fn held(&self) -> u64
        ensures { result ≡ bytes_held self.now }
    {
        self.bytes.len() as u64
    }
}
