//! The reading of a capture piece by piece.

ghost use Rattle.std.specs.Prelude.{◌≡◌, ◌<◌, ◌^◌, ℕ, List, [], ⊤, length, Option, Some, None, IfOk, IfErr, IfSome, IfNone, MatchResult, OnErr, true, false};
ghost use Rattle.std.specs.Borrow.{sem};
ghost use Rattle.ds_base.specs.Outside.{SourceSeen, SourceStays, IsFresh};
ghost use Rattle.pcap_reader.specs.Captured.{Captured};
ghost use Rattle.pcap_reader.specs.Format.{is_short_header};
ghost use Rattle.pcap_reader.specs.Good.{good};
ghost use Rattle.pcap_reader.specs.Lent.{captured, IsLawful};
ghost use Rattle.pcap_reader.specs.Reader.{StandsFor, IsWaiting, bytes_held};
ghost use Rattle.input_files.specs.Reading.{Reading, HasRead, Reads, ReadsNoted, StopsPiece, GivesOf, bytes_read, records_read};

use crate::fault::FileFault;
use ds_base::{Bad, OutOfMemory, Source, Tail};
use ghost_list::GhostList;
use pcap_reader::{PcapReader, RecordRef};
use std::alloc::Global;
use std::marker::Model;

/// What a read of a source gave.
#[derive(Clone, Copy, Debug, PartialEq, Eq)]
pub enum Piece {
    /// A piece, which was taken in.
    More,
    /// The source has no more bytes.
    End,
}

/// Reads a capture of a source, which it does not hold.
///
/// Call `next` until it answers None, then `read`, and so on until that answers `End`; then call `finish`.
/// Each call may come at any later time, so a node can keep the reading beside its source for a whole run.
#[derive(Drop)]
pub struct CaptureReading {
    reader: PcapReader,
    /// Where a read puts its bytes.
    buffer: Vec<u8>,
}

impl Model for CaptureReading {
    ghost use Rattle.std.specs.Prelude.{◌<◌, ◌^◌};
    ghost use Rattle.std.specs.Vec.{vec_len};
    ghost use Rattle.input_files.specs.Reading.{Reading};

    ghost Value = { Reading };

    ghost view = { λ r. record { reader = r.reader; piece = vec_len r.buffer } };

    ghost invariant = { λ r. (0 < vec_len r.buffer) × (vec_len r.buffer < 2 ^ 32) };
}

impl CaptureReading {
    ghost use Rattle.input_files.specs.contracts.reading.CaptureReading.{the_row};
    ghost use mathlib.Core.Option.{none};
    ghost use denote.Follow.{follows_so};

    /// Nothing was read. The records are those of the interface that is wanted, or of all; each read will ask for
    /// `piece` bytes, for which it takes the memory here.
    pub fn new(alloc: Global, wanted: Option<u32>, piece: u32) -> Result<Self, OutOfMemory>
        requires { 0 < piece }
        ensures none { IfOk result (λ reading. (source : SourceSeen) → IsFresh source → HasRead wanted reading source [] []) }
        ensures asks { IfOk result (λ reading. reading.piece ≡ piece) }
        ensures waiting { IfOk result (λ reading. IsWaiting reading.reader) }
        ensures given { IfOk result (λ reading. records_read reading ≡ 0) }
        ensures read { IfOk result (λ reading. bytes_read reading ≡ 0) }
    {
        let Ok(buffer) = vec![in alloc; 0u8; piece as usize] else {
            return Err(OutOfMemory);
        };
        Ok(CaptureReading {
            reader: PcapReader::for_interface(alloc, wanted),
            buffer,
        })
    }

    /// Reads one piece of the source and takes it in. `next` has answered None before it, since the last
    /// piece.
    ///
    /// `Unread` where the read failed: all stays, and it may be tried again. `OutOfMemory` where there was no
    /// memory for the piece: the reading stays as it was, and the piece is lost.
    pub fn read<S: Source>(&mut self, source: &mut S) -> Result<Piece, FileFault>
        requires { bytes_read self.old < 2 ^ 61 }
        ensures stays { SourceStays (S.seen source.old) (S.seen source.new) }
        ensures ends { MatchResult result
            (Reads self.old self.new (S.seen source.old) (S.seen source.new))
            (StopsPiece self.old self.new (S.seen source.old) (S.seen source.new)) }
    {
        let mut unseen: GhostList<u8> = GhostList::new();
        self.read_noted(source, &mut unseen)
    }

    /// The same, and notes the bytes that were read for contracts.
    #[tactic(auto, using(crate::proofs::Less::less_left))]
    pub fn read_noted<S: Source>(
        &mut self,
        source: &mut S,
        noted: &mut GhostList<u8>,
    ) -> Result<Piece, FileFault>
        requires { bytes_read self.old < 2 ^ 61 }
        ensures stays { SourceStays (S.seen source.old) (S.seen source.new) }
        ensures ends { MatchResult result
            (ReadsNoted self.old self.new (S.seen source.old) (S.seen source.new) noted.old.items noted.new.items)
            (StopsPiece self.old self.new (S.seen source.old) (S.seen source.new)) }
        ensures unnoted { OnErr result (noted.new.items ≡ noted.old.items) }
    {
        let Ok(n) = source.read(self.buffer.as_mut_slice()) else {
            return Err(FileFault::Unread);
        };
        if n == 0 {
            return Ok(Piece::End);
        }
        let Ok(()) = self.reader.feed(&self.buffer[..n]) else {
            return Err(FileFault::OutOfMemory);
        };
        *noted = noted.and_all(&self.buffer[..n]);
        Ok(Piece::More)
    }

    /// The next record of what was read, with its bytes lent. None: what was read has no further whole
    /// record that is wanted and no malformed place, or ends inside the first header or block of the file; then
    /// `read` goes on, or at the end `finish`. `Bad` is the first malformed place, once the records before it were given; it comes again
    /// at each later call.
    pub fn next(&mut self) -> Result<Option<RecordRef<'_>>, Bad>
        ensures lawful { IfOk result (λ o. IfSome o (λ r. IsLawful (captured r))) }
        ensures long { IfErr result (λ b. is_short_header b.what ≡ false) }
        ensures bounded { IfOk result (λ o. IfNone o (bytes_read self.old < 2 ^ 61)) }
        ensures* after { sem 𝓛 (follows_so the_row the_row self.entry.ghost_name none (λ _ _. ⊤) (λ after. GivesOf self.old result after)) }
    {
        self.reader.next()
    }

    /// What is known at the end of the source: how many records the capture has that are wanted, and whether it ends
    /// inside a record or a block; or that it ends inside its first header or block.
    pub fn finish(&self) -> Result<Tail, Bad>
        requires { IsWaiting self.now.reader }
        ensures whole { IfOk result (λ t. (wanted : Option ℕ) (source : SourceSeen) (bytes : List ℕ) (given : List Captured) → HasRead wanted self.now source bytes given →
            ((good wanted bytes).bad ≡ None) × (t.records ≡ length (good wanted bytes).records) × (t.cut ≡ (good wanted bytes).cut)) }
        ensures short { IfErr result (λ b. (wanted : Option ℕ) (source : SourceSeen) (bytes : List ℕ) (given : List Captured) → HasRead wanted self.now source bytes given →
            ((good wanted bytes).bad ≡ Some b) × (is_short_header b.what ≡ true)) }
    {
        self.reader.finish()
    }

    /// How many bytes are kept in memory beside the piece: after `next` answered None at most 262,159 of a libpcap
    /// file, and 16,777,215 of a pcapng file.
    pub fn held(&self) -> u64
        ensures { result ≡ bytes_held self.now.reader }
    {
        self.reader.held()
    }
}
