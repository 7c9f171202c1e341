//! One capture of a parser, beside its source.
ghost use Rattle.std.specs.Prelude.{◌≡◌, ◌<◌, ◌+◌, ◌∷◌, ◌++◌, ◌^◌, [], ℕ, List, Option, false, true, Some, IfOk, OnOk, MatchResult, length, ◌≤◌};
ghost use Rattle.ds_base.specs.Outside.{SourceSeen, SourceStays, IsFresh};
ghost use Rattle.input_files.specs.Reading.{HasRead};
ghost use Rattle.key_select.specs.Fates.{counts_of};
ghost use Rattle.key_select.specs.Wanted.{good_of};
ghost use Rattle.run_law.specs.Nodes.{IsWhole};
ghost use Rattle.summary_spec.specs.Declaration.{Declared};
ghost use Rattle.key_select.specs.Late.{mark_of};
ghost use Rattle.key_select.specs.Tally.{Tallies, capture_of, newest_of, records_taken};
ghost use Rattle.pcap_reader.specs.Captured.{Captured};
ghost use Rattle.pcap_reader.specs.Lent.{captured, IsLawful};
ghost use Rattle.pcap_reader.specs.Reader.{IsWaiting, bytes_held, bytes_fed, most_waiting};
ghost use Rattle.summary_spec.specs.Job.{declared_of};
ghost use Rattle.parser_captures.specs.Captures.{CaptureStands, Advances, StopsBy, IsLeft, reading_of};

use ds_base::{Bad, Counts, OutOfMemory, Source, Summary};
use ghost_list::GhostList;
use input_files::{CaptureReading, FileFault, Piece};
use key_select::{Tally, wanted_of};
use std::alloc::Global;
use summary_spec::Job;

/// How many bytes a read asks for.
const PIECE: u32 = 4096;

/// What a step with a capture was.
pub enum Step {
    /// A record was taken up; its summary, where that is accepted.
    Took(Option<Summary>),
    /// A piece of the source was read.
    Bytes,
    /// The source ended, and the capture is sound.
    End(Counts),
}

/// Why a capture goes no further.
pub enum CaptureStop {
    /// It is malformed.
    Malformed(Bad),
    /// A read failed.
    Unread,
    /// There was no memory.
    OutOfMemory,
}

/// A capture as far as it was read.
#[derive(Drop)]
pub struct OneCapture {
    /// What was read of its source.
    pub reading: CaptureReading,
    /// How its records fared, and their newest time.
    pub tally: Tally,
    /// All bytes that were read.
    pub bytes: GhostList<u8>,
    /// How many records were taken up since its last mark.
    pub behind: u32,
    /// Whether its source has ended.
    pub ended: bool,
}

impl OneCapture {
    /// The capture of the job that has this number, of which nothing was read.
    pub fn new(alloc: Global, job: &Job, capture: u32) -> Result<Self, OutOfMemory>
        requires capture { capture < length job.now.names.captures.items }
        ensures stands { IfOk result (λ c. CaptureStands (declared_of job.now) c) }
        ensures unread { IfOk result (λ c. (c.bytes.items ≡ []) × (records_taken c.tally ≡ 0) × (c.behind ≡ 0) × (c.ended ≡ false) × (capture_of c.tally ≡ capture)) }
    {
        let Ok(reading) = CaptureReading::new(alloc, wanted_of(job, capture), PIECE) else {
            return Err(OutOfMemory);
        };
        let Ok(()) = empty(&reading) else {
            return Err(OutOfMemory);
        };
        Ok(OneCapture {
            reading,
            tally: Tally::new(job, capture),
            bytes: GhostList::new(),
            behind: 0,
            ended: false,
        })
    }

    /// Takes the next record up; where what was read has none, reads one piece; and at the source's end finishes.
    pub fn advance<S: Source>(&mut self, job: &Job, source: &mut S) -> Result<Step, CaptureStop>
        requires capture { capture_of self.old.tally < length job.now.names.captures.items }
        requires stands { CaptureStands (declared_of job.now) self.old }
        requires going { self.old.ended ≡ false }
        requires near { self.old.behind < 32 }
        requires left { IsLeft self.old.bytes.items (S.seen source.old) }
        ensures stays { SourceStays (S.seen source.old) (S.seen source.new) }
        ensures capture { capture_of self.new.tally ≡ capture_of self.old.tally }
        ensures ends { MatchResult result
            (Advances (declared_of job.now) self.old self.new (S.seen source.old) (S.seen source.new))
            (StopsBy (declared_of job.now) self.old self.new (S.seen source.old) (S.seen source.new)) }
    {
        match self.reading.next() {
            Ok(Some(r)) => {
                self.behind += 1;
                Ok(Step::Took(self.tally.take_up(job, &r)))
            }
            Ok(None) => self.read_on(source),
            Err(bad) => Err(CaptureStop::Malformed(bad)),
        }
    }

    /// Reads one piece, or finishes at the source's end.
    fn read_on<S: Source>(&mut self, source: &mut S) -> Result<Step, CaptureStop>
        requires waiting { IsWaiting self.old.reading.reader }
        requires fed { bytes_fed self.old.reading.reader < 2 ^ 61 }
        requires left { IsLeft self.old.bytes.items (S.seen source.old) }
        requires short { bytes_held self.old.reading.reader ≤ most_waiting self.old.reading.reader }
        ensures stays { SourceStays (S.seen source.old) (S.seen source.new) }
        ensures tally { self.new.tally ≡ self.old.tally }
        ensures ends { (job : Declared) → CaptureStands job self.old → MatchResult result
            (Advances job self.old self.new (S.seen source.old) (S.seen source.new))
            (StopsBy job self.old self.new (S.seen source.old) (S.seen source.new)) }
    {
        match self.reading.read_noted(source, &mut self.bytes) {
            Ok(Piece::More) => Ok(Step::Bytes),
            Ok(Piece::End) => match self.finish() {
                Ok(counts) => Ok(Step::End(counts)),
                Err(bad) => Err(CaptureStop::Malformed(bad)),
            },
            Err(FileFault::Unread) => Err(CaptureStop::Unread),
            Err(FileFault::OutOfMemory) => Err(CaptureStop::OutOfMemory),
        }
    }

    /// The source has ended.
    fn finish(&mut self) -> Result<Counts, Bad>
        requires waiting { IsWaiting self.old.reading.reader }
        ensures same { self.new ≡ record self.old { ended = true } }
        ensures ends { (job : Declared) → CaptureStands job self.old → MatchResult result
            (λ counts. IsWhole job (capture_of self.old.tally) (reading_of job self.new)
            × (counts ≡ counts_of job (capture_of self.old.tally) (reading_of job self.new).records (good_of job (capture_of self.old.tally) self.new.bytes.items).cut))
            (λ bad. (good_of job (capture_of self.old.tally) self.new.bytes.items).bad ≡ Some bad) }
    {
        self.ended = true;
        match self.reading.finish() {
            Ok(tail) => Ok(self.tally.counts(tail.cut)),
            Err(bad) => Err(bad),
        }
    }
}

// A reading of which nothing was read holds nothing; here the number tells it.
fn empty(reading: &CaptureReading) -> Result<(), OutOfMemory>
    ensures none { OnOk result (bytes_held reading.now.reader ≡ 0) }
{
    if reading.held() > 0 {
        return Err(OutOfMemory);
    }
    Ok(())
}
