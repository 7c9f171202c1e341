//! One step with the capture that was chosen, and the frames that it puts.
ghost use Rattle.std.specs.Prelude.{◌≡◌, ◌<◌, ◌≤◌, ◌+◌, ◌∷◌, ◌++◌, [], ℕ, true, false, MatchResult, length, slice_index_or};
ghost use Rattle.credit_link.specs.Frames.{is_finish};
ghost use Rattle.ds_base.specs.Outside.{SourceStays};
ghost use Rattle.key_select.specs.Tally.{capture_of};
ghost use Rattle.node_frames.specs.declared.frame.Frame.TheVariants.{Finish};
ghost use Rattle.shuffle_poll.specs.Shuffles.{ShuffleHolds};
ghost use Rattle.summary_spec.specs.Job.{declared_of};
ghost use Rattle.node_lanes.specs.Ends.{put_on};
ghost use Rattle.parser_captures.specs.Puts.{IsEmpty, IsUnfinished, frames_for};
ghost use Rattle.parser_steps.specs.One.{OneSteps, OneStops, MayStep, PutsRecord, PutsEnd};

use crate::step::Stepped;
use credit_link::{NamedRx, NamedTx, NodeFault};
use ds_base::{Counts, Source, Summary};
use node_frames::Frame;
use parser_captures::{CaptureStop, OneCapture, Step, put_found, put_to_groupers};
use shuffle_poll::Shuffle;
use summary_spec::Job;

/// After so many records of a capture a mark is put for each grouper.
const RECORDS_A_MARK: u32 = 32;

/// One step with a capture that goes on: its next record, one piece of its source, or its end.
pub(crate) fn step_one<S: Source, T: NamedTx, R: NamedRx>(
    job: &Job,
    number: u32,
    groupers: u32,
    capture: &mut OneCapture,
    source: &mut S,
    out: &mut Shuffle<T, R>,
) -> Result<Stepped, NodeFault>
    requires number { number < length job.now.names.captures.items }
    requires may { MayStep (declared_of job.now) number capture.old (S.seen source.old) }
    requires groupers { (0 < groupers) × (length out.old.links ≡ groupers + 1) }
    requires holds { ShuffleHolds out.old.links out.old.queues }
    requires none { IsEmpty out.old }
    requires unfinished { IsUnfinished out.old }
    ensures stays { SourceStays (S.seen source.old) (S.seen source.new) }
    ensures own { capture_of capture.new.tally ≡ number }
    ensures links { out.new.links ≡ out.old.links }
    ensures holds { ShuffleHolds out.new.links out.new.queues }
    ensures ends { MatchResult result
        (OneSteps (declared_of job.now) number groupers capture.old capture.new (S.seen source.old) (S.seen source.new) out.old out.new)
        (λ bad. (out.new ≡ out.old) × OneStops (declared_of job.now) number capture.old capture.new (S.seen source.old) (S.seen source.new) bad) }
{
    match capture.advance(job, source) {
        Ok(Step::Took(found)) => {
            put_record(number, groupers, capture, found, out);
            Ok(Stepped::Took)
        }
        Ok(Step::Bytes) => Ok(Stepped::Read),
        Ok(Step::End(counts)) => {
            put_end(number, groupers, counts, out);
            Ok(Stepped::CaptureEnded)
        }
        Err(CaptureStop::Malformed(bad)) => Err(NodeFault::Malformed {
            capture: number,
            bad,
        }),
        Err(CaptureStop::Unread) => Err(NodeFault::Read { capture: number }),
        Err(CaptureStop::OutOfMemory) => Err(NodeFault::OutOfMemory),
    }
}

/// Puts what a record that was taken up is due: the Item of the summary that was found, and a mark where none was put
/// for so many records.
pub(crate) fn put_record<T: NamedTx, R: NamedRx>(
    number: u32,
    groupers: u32,
    capture: &mut OneCapture,
    found: Option<Summary>,
    out: &mut Shuffle<T, R>,
)
    requires groupers { (0 < groupers) × (length out.old.links ≡ groupers + 1) }
    requires holds { ShuffleHolds out.old.links out.old.queues }
    requires none { IsEmpty out.old }
    requires unfinished { IsUnfinished out.old }
    ensures own { capture_of capture.new.tally ≡ capture_of capture.old.tally }
    ensures links { out.new.links ≡ out.old.links }
    ensures holds { ShuffleHolds out.new.links out.new.queues }
    ensures puts { PutsRecord number groupers found capture.old capture.new out.old out.new }
{
    put_item(out, groupers, found);
    if capture.behind < RECORDS_A_MARK {
        return;
    }
    let mark = capture.tally.mark();
    put_each(
        out,
        groupers,
        Frame::Mark {
            capture: number,
            mark,
        },
    );
    capture.behind = 0;
}

/// Puts the end of a capture for each grouper, and its row for the merge.
pub(crate) fn put_end<T: NamedTx, R: NamedRx>(
    number: u32,
    groupers: u32,
    counts: Counts,
    out: &mut Shuffle<T, R>,
)
    requires groupers { length out.old.links ≡ groupers + 1 }
    requires holds { ShuffleHolds out.old.links out.old.queues }
    requires none { IsEmpty out.old }
    requires unfinished { IsUnfinished out.old }
    ensures links { out.new.links ≡ out.old.links }
    ensures holds { ShuffleHolds out.new.links out.new.queues }
    ensures puts { PutsEnd number groupers counts out.old out.new }
{
    put_each(out, groupers, Frame::CaptureEnd { capture: number });
    out.put(
        groupers,
        Frame::CountsRow {
            capture: number,
            counts,
        },
    );
}

/// Puts the end of the link on each link, where it was not put before.
pub(crate) fn put_finish<T: NamedTx, R: NamedRx>(
    finished: &mut bool,
    groupers: u32,
    out: &mut Shuffle<T, R>,
)
    requires groupers { (groupers ≤ 16) × (length out.old.links ≡ groupers + 1) }
    requires holds { ShuffleHolds out.old.links out.old.queues }
    requires none { IsEmpty out.old }
    requires unfinished { finished.old ≡ false → IsUnfinished out.old }
    ensures finished { finished.new ≡ true }
    ensures links { out.new.links ≡ out.old.links }
    ensures holds { ShuffleHolds out.new.links out.new.queues }
    ensures put { finished.old ≡ false → (k : ℕ) → k < length out.old.links → put_on out.new k ≡ put_on out.old k ++ Finish ∷ [] }
    ensures still { finished.old ≡ true → out.new ≡ out.old }
{
    if *finished {
        return;
    }
    out.put_all(groupers + 1, Frame::Finish);
    *finished = true;
}

// Puts the Item of what was found. The links hold what they held.
fn put_item<T: NamedTx, R: NamedRx>(out: &mut Shuffle<T, R>, groupers: u32, found: Option<Summary>)
    requires groupers { (0 < groupers) × (length out.old.links ≡ groupers + 1) }
    requires holds { ShuffleHolds out.old.links out.old.queues }
    requires none { IsEmpty out.old }
    requires unfinished { IsUnfinished out.old }
    ensures links { out.new.links ≡ out.old.links }
    ensures holds { ShuffleHolds out.new.links out.new.queues }
    ensures put { (k : ℕ) → put_on out.new k ≡ put_on out.old k ++ frames_for groupers k found }
    ensures few { (k : ℕ) → length (slice_index_or out.new.queues k []) ≤ 1 }
    ensures unfinished { IsUnfinished out.new }
{
    put_found(out, groupers, found);
    let _ = out.waiting();
}

// Puts a frame that is no end on each link to a grouper. The links hold what they held.
fn put_each<T: NamedTx, R: NamedRx>(out: &mut Shuffle<T, R>, groupers: u32, frame: Frame)
    requires groupers { length out.old.links ≡ groupers + 1 }
    requires holds { ShuffleHolds out.old.links out.old.queues }
    requires few { (k : ℕ) → length (slice_index_or out.old.queues k []) ≤ 1 }
    requires unfinished { IsUnfinished out.old }
    requires goes_on { is_finish frame ≡ false }
    ensures links { out.new.links ≡ out.old.links }
    ensures holds { ShuffleHolds out.new.links out.new.queues }
    ensures put { (k : ℕ) → k < groupers → put_on out.new k ≡ put_on out.old k ++ frame ∷ [] }
    ensures merge { put_on out.new groupers ≡ put_on out.old groupers }
    ensures unfinished { IsUnfinished out.new }
{
    put_to_groupers(out, groupers, frame);
    let _ = out.waiting();
}
