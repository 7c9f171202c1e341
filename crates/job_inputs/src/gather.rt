//! The gathering of one capture.

ghost use Rattle.std.specs.Prelude.{◌≡◌, ◌<◌, ◌∷◌, ◌++◌, ◌+◌, ◌^◌, [], ℕ, List, MatchResult, OnOk, length};
ghost use Rattle.ds_base.specs.Outside.{IsFresh, SourceStays};
ghost use Rattle.ds_base.specs.declared.summary.Summary.{Summary};
ghost use Rattle.input_files.specs.Reading.{HasRead, records_read};
ghost use Rattle.key_select.specs.Wanted.{wanted_of};
ghost use Rattle.key_select.specs.Tally.{capture_of, records_taken};
ghost use Rattle.pcap_reader.specs.Captured.{Captured};
ghost use Rattle.pcap_reader.specs.Lent.{captured, IsLawful};
ghost use Rattle.summary_spec.specs.Job.{declared_of};
ghost use Rattle.job_inputs.specs.Gathering.{Collects, IsReadWhole, StopsRead, GathersAll};

use ds_base::{Counts, OutOfMemory, Source};
use input_files::{CaptureFault, CaptureReading, Piece};
use key_select::{Tally, wanted_of};
use packed_summaries::LeanList;
use pcap_reader::RecordRef;
use std::alloc::Global;
use summary_spec::Job;

/// How many bytes a read asks for.
const PIECE: u32 = 262_144;

/// Reads the capture of the job that has this number to its end. The summaries of its accepted records
/// go to the end of `accepted`, and the counts say how all its records fared.
pub(crate) fn gather_capture<S: Source>(
    alloc: Global,
    job: &Job,
    capture: u32,
    source: &mut S,
    accepted: &mut LeanList,
) -> Result<Counts, CaptureFault>
    requires fresh { IsFresh (S.seen source.old) }
    requires capture { capture < length job.now.names.captures.items }
    ensures stays { SourceStays (S.seen source.old) (S.seen source.new) }
    ensures ends { MatchResult result
        (GathersAll (declared_of job.now) capture (S.seen source.old) (S.seen source.old).faults (S.seen source.new).faults accepted.old.items accepted.new.items)
        (StopsRead (S.seen source.old) (S.seen source.old).faults (S.seen source.new).faults) }
{
    let Ok(mut reading) = CaptureReading::new(alloc, wanted_of(job, capture), PIECE) else {
        return Err(CaptureFault::OutOfMemory);
    };
    let mut tally = Tally::new(job, capture);
    gather_records(job, source, &mut reading, &mut tally, accepted)?;
    match reading.finish() {
        Ok(tail) => Ok(tally.counts(tail.cut)),
        Err(bad) => Err(CaptureFault::Malformed {
            at: bad.at,
            what: bad.what,
        }),
    }
}

/// Takes up all whole records of a source.
fn gather_records<S: Source>(
    job: &Job,
    source: &mut S,
    reading: &mut CaptureReading,
    tally: &mut Tally,
    accepted: &mut LeanList,
) -> Result<(), CaptureFault>
    requires unread { HasRead (wanted_of (declared_of job.now) (capture_of tally.old)) reading.old (S.seen source.old) [] [] }
    requires given { records_taken tally.old ≡ records_read reading.old }
    requires named { capture_of tally.old < length job.now.names.captures.items }
    requires untaken { Collects (declared_of job.now) (capture_of tally.old) tally.old accepted.old.items accepted.old.items [] }
    ensures stays { SourceStays (S.seen source.old) (S.seen source.new) }
    ensures ends { MatchResult result
        (λ _. IsReadWhole (declared_of job.now) (capture_of tally.old) (S.seen source.old) (S.seen source.new) reading.new tally.new accepted.old.items accepted.new.items)
        (StopsRead (S.seen source.old) (S.seen source.old).faults (S.seen source.new).faults) }
{
    'records: loop {
        match reading.next() {
            Ok(Some(r)) => {
                let Ok(()) = take_up(job, &r, tally, accepted) else {
                    return Err(CaptureFault::OutOfMemory);
                };
            }
            Ok(None) => match reading.read(source) {
                Ok(Piece::More) => {}
                Ok(Piece::End) => return Ok(()),
                Err(fault) => return Err(CaptureFault::from(fault)),
            },
            Err(bad) => {
                return Err(CaptureFault::Malformed {
                    at: bad.at,
                    what: bad.what,
                });
            }
        }
    }
}

/// Takes the next record up, and puts its summary at the end of `accepted` where it is accepted.
fn take_up(
    job: &Job,
    r: &RecordRef<'_>,
    tally: &mut Tally,
    accepted: &mut LeanList,
) -> Result<(), OutOfMemory>
    requires named { capture_of tally.old < length job.now.names.captures.items }
    requires lawful { IsLawful (captured r.now) }
    requires few { records_taken tally.old < 2 ^ 63 }
    ensures collects { OnOk result ((capture : ℕ) (start : List Summary) (taken : List Captured) →
        Collects (declared_of job.now) capture tally.old start accepted.old.items taken →
        Collects (declared_of job.now) capture tally.new start accepted.new.items (taken ++ captured r.now ∷ [])) }
    ensures capture { capture_of tally.new ≡ capture_of tally.old }
    ensures records { OnOk result (records_taken tally.new ≡ records_taken tally.old + 1) }
{
    let Some(summary) = tally.take_up(job, r) else {
        return Ok(());
    };
    let Ok(()) = accepted.push(&summary) else {
        return Err(OutOfMemory);
    };
    Ok(())
}
