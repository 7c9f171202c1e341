//! One step of a parser, over its parts.
ghost use Rattle.std.specs.Prelude.{◌≡◌, ◌<◌, ◌≤◌, ◌+◌, ℕ, None, MatchResult, length, map, slice_index_or};
ghost use Rattle.ds_base.specs.Outside.{SourceSeen};
ghost use Rattle.shuffle_poll.specs.Shuffles.{ShuffleHolds};
ghost use Rattle.summary_spec.specs.Job.{declared_of};
ghost use Rattle.parser_captures.specs.Choice.{IsLeast, capture_in};
ghost use Rattle.parser_captures.specs.Puts.{IsEmpty, IsUnfinished};
ghost use Rattle.parser_captures.specs.declared.capture.OneCapture.{OneCapture as CaptureSeen};
ghost use Rattle.parser_steps.specs.One.{MayStep, ChangesOne, OneSteps, OneStops};
ghost use Rattle.parser_steps.specs.Seen.{StepsStand, steps_of};
ghost use Rattle.parser_steps.specs.Holds.{ParserHolds};
ghost use Rattle.parser_steps.specs.Steps.{StepsWell, StepsBadly};

use crate::one::{put_finish, step_one};
use crate::step::Stepped;
use credit_link::{NamedRx, NamedTx, NodeFault};
use ds_base::{Source, SourceList};
use parser_captures::{OneCapture, choose};
use shuffle_poll::Shuffle;
use summary_spec::Job;

/// One step: with the capture that comes next, or where all have ended the end of the links.
pub(crate) fn step_over<S: Source, T: NamedTx, R: NamedRx>(
    job: &Job,
    me: u32,
    parsers: u32,
    groupers: u32,
    captures: &mut Vec<OneCapture>,
    sources: &mut SourceList<S>,
    finished: &mut bool,
    out: &mut Shuffle<T, R>,
) -> Result<Stepped, NodeFault>
    requires stand { StepsStand (declared_of job.now) me parsers groupers captures.old.items (map S.seen sources.old.items) }
    requires holds { ParserHolds (steps_of (declared_of job.now) me parsers groupers captures.old.items (map S.seen sources.old.items) finished.old) out.old None }
    requires none { IsEmpty out.old }
    ensures stand { StepsStand (declared_of job.now) me parsers groupers captures.new.items (map S.seen sources.new.items) }
    ensures ends { MatchResult result
        (StepsWell (steps_of (declared_of job.now) me parsers groupers captures.old.items (map S.seen sources.old.items) finished.old)
        (steps_of (declared_of job.now) me parsers groupers captures.new.items (map S.seen sources.new.items) finished.new) out.old out.new)
        (StepsBadly (steps_of (declared_of job.now) me parsers groupers captures.old.items (map S.seen sources.old.items) finished.old)
        (steps_of (declared_of job.now) me parsers groupers captures.new.items (map S.seen sources.new.items) finished.new) out.old out.new) }
{
    let Some(i) = choose(captures) else {
        put_finish(finished, groupers, out);
        return Ok(Stepped::Ended);
    };
    match step_at(
        job, me, parsers, groupers, captures, sources, *finished, i, out,
    ) {
        Ok(stepped) => Ok(stepped),
        Err(bad) => Err(bad),
    }
}

/// One step with the capture at a place, which comes next.
fn step_at<S: Source, T: NamedTx, R: NamedRx>(
    job: &Job,
    me: u32,
    parsers: u32,
    groupers: u32,
    captures: &mut Vec<OneCapture>,
    sources: &mut SourceList<S>,
    finished: bool,
    i: usize,
    out: &mut Shuffle<T, R>,
) -> Result<Stepped, NodeFault>
    requires stand { StepsStand (declared_of job.now) me parsers groupers captures.old.items (map S.seen sources.old.items) }
    requires holds { ParserHolds (steps_of (declared_of job.now) me parsers groupers captures.old.items (map S.seen sources.old.items) finished) out.old None }
    requires none { IsEmpty out.old }
    requires least { IsLeast captures.old.items (length captures.old.items) i }
    ensures stand { StepsStand (declared_of job.now) me parsers groupers captures.new.items (map S.seen sources.new.items) }
    ensures ends { MatchResult result
        (StepsWell (steps_of (declared_of job.now) me parsers groupers captures.old.items (map S.seen sources.old.items) finished)
        (steps_of (declared_of job.now) me parsers groupers captures.new.items (map S.seen sources.new.items) finished) out.old out.new)
        (StepsBadly (steps_of (declared_of job.now) me parsers groupers captures.old.items (map S.seen sources.old.items) finished)
        (steps_of (declared_of job.now) me parsers groupers captures.new.items (map S.seen sources.new.items) finished) out.old out.new) }
{
    let number = me + i as u32 * parsers;
    match step_in(job, number, groupers, captures, sources, i, out) {
        Ok(stepped) => Ok(stepped),
        Err(bad) => Err(bad),
    }
}

// The same over the captures and the sources alone: those at other places are left alone.
fn step_in<S: Source, T: NamedTx, R: NamedRx>(
    job: &Job,
    number: u32,
    groupers: u32,
    captures: &mut Vec<OneCapture>,
    sources: &mut SourceList<S>,
    i: usize,
    out: &mut Shuffle<T, R>,
) -> Result<Stepped, NodeFault>
    requires there { (i < length captures.old.items) × (i < length sources.old.items) }
    requires number { number < length job.now.names.captures.items }
    requires may { (d : CaptureSeen) (e : SourceSeen) → MayStep (declared_of job.now) number (capture_in captures.old.items i d) (slice_index_or (map S.seen sources.old.items) i e) }
    requires groupers { (0 < groupers) × (length out.old.links ≡ groupers + 1) }
    requires holds { ShuffleHolds out.old.links out.old.queues }
    requires none { IsEmpty out.old }
    requires unfinished { IsUnfinished out.old }
    ensures links { out.new.links ≡ out.old.links }
    ensures holds { ShuffleHolds out.new.links out.new.queues }
    ensures ends { MatchResult result
        (λ stepped. ChangesOne (λ old new before after. OneSteps (declared_of job.now) number groupers old new before after out.old out.new stepped)
        number i captures.old.items captures.new.items (map S.seen sources.old.items) (map S.seen sources.new.items))
        (λ bad. ChangesOne (λ old new before after. (out.new ≡ out.old) × OneStops (declared_of job.now) number old new before after bad)
        number i captures.old.items captures.new.items (map S.seen sources.old.items) (map S.seen sources.new.items)) }
{
    let source = sources.get_mut(i as u64);
    match step_one(job, number, groupers, &mut captures[i], source, out) {
        Ok(stepped) => Ok(stepped),
        Err(bad) => Err(bad),
    }
}
