//! A parser as it stands between steps.
ghost use Rattle.std.specs.Prelude.{◌≡◌, ◌<◌, ◌≤◌, ◌+◌, ◌/◌, ℕ, List, [], None, Some, IfOk, IfErr, All, MatchResult, length, map, slice_index_or};
ghost use Rattle.ds_base.specs.Outside.{IsFresh};
ghost use Rattle.credit_link.specs.Ends.{TxSeen};
ghost use Rattle.summary_spec.specs.Job.{declared_of};
ghost use Rattle.net_law.specs.Parsers.{ParserGoes, ParserMeets};
ghost use Rattle.net_law.specs.Starts.{AreOwn, AreNewOuts, new_parser, new_outs};
ghost use Rattle.parser_captures.specs.Puts.{IsEmpty};

use crate::fresh::new_captures;
use crate::over::step_over;
use crate::step::Stepped;
use credit_link::{NamedRx, NamedTx, NodeFault};
use ds_base::{Source, SourceList};
use parser_captures::OneCapture;
use shuffle_poll::Shuffle;
use std::alloc::Global;
use std::marker::Model;
use summary_spec::Job;

/// A parser without its turns and its links: its captures in the rising order of their numbers, each with its source.
/// The parser's own captures are those whose number, divided by the number of parsers, leaves its own number.
#[derive(Drop)]
pub struct ParserSteps<'a, S: Source> {
    job: &'a Job,
    /// The parser's number, from 0.
    me: u32,
    /// How many parsers there are, at most 16.
    parsers: u32,
    /// To how many groupers links lead, at most 16. The link behind these leads to the merge.
    groupers: u32,
    captures: Vec<OneCapture>,
    /// The source of each capture.
    sources: SourceList<S>,
    /// Whether the end was put on each link.
    finished: bool,
}

impl<'a, S: Source> Model for ParserSteps<'a, S> {
    ghost use Rattle.parser_steps.specs.Seen.{StepsSeen};

    ghost Value = { StepsSeen };

    ghost use Rattle.std.specs.Coded.{codes};
    ghost use Rattle.net_law.specs.Codes.{expression_code};

    ghost coded = { Prim.hlevel (codes, expression_code) };

    ghost use Rattle.std.specs.Prelude.{map};
    ghost use Rattle.summary_spec.specs.Job.{declared_of};
    ghost use Rattle.parser_steps.specs.Seen.{StepsStand, steps_of};

    ghost view = { λ p. steps_of (declared_of p.job.now) p.me p.parsers p.groupers p.captures.items (map S.seen p.sources.items) p.finished };

    ghost invariant = { λ p. StepsStand (declared_of p.job.now) p.me p.parsers p.groupers p.captures.items (map S.seen p.sources.items) };
}

impl<'a, S: Source> ParserSteps<'a, S> {
    ghost use Rattle.parser_steps.specs.Seen.{seen_of, new_steps};
    ghost use Rattle.parser_steps.specs.Holds.{ParserHolds};
    ghost use Rattle.parser_steps.specs.Steps.{StepsBy};

    /// The parser of this number among so many, which has read nothing: `sources` has the source of each capture of its
    /// own, in rising order. It is refused for want of memory alone, and takes all memory that its steps need but
    /// that for the bytes of captures.
    pub fn new(
        alloc: Global,
        job: &'a Job,
        me: u32,
        parsers: u32,
        groupers: u32,
        sources: SourceList<S>,
    ) -> Result<Self, SourceList<S>>
        requires place { (me < parsers) × (parsers ≤ 16) }
        requires groupers { (1 ≤ groupers) × (groupers ≤ 16) }
        requires own { AreOwn (new_parser (declared_of job.now) me parsers 0 (map S.seen sources.items) []) }
        requires fresh { All IsFresh (map S.seen sources.items) }
        ensures unread { IfOk result (λ steps. steps ≡ new_steps (declared_of job.now) me parsers groupers (map S.seen sources.items)) }
        ensures holds { IfOk result (λ steps. (credits : ℕ) (links : List TxSeen) → length links ≡ groupers + 1 → AreNewOuts credits links → ParserHolds steps (new_outs links) None) }
        ensures refused { IfErr result (λ back. back ≡ sources) }
    {
        match new_captures(alloc, job, me, parsers, sources.len()) {
            Ok(captures) => Ok(ParserSteps {
                job,
                me,
                parsers,
                groupers,
                captures,
                sources,
                finished: false,
            }),
            Err(_) => Err(sources),
        }
    }

    /// One step, while no frame waits on a link. Of the captures that go on that with the least newest time is taken, where
    /// none is before every time, and the lowest of equal ones. Its next record is taken up: the summary of an
    /// accepted one is put for the grouper of its shard, and after 32 records a mark for each grouper. Where no whole record
    /// is in memory one piece is read, and at the source's end the capture's end is put for each grouper and its row for the
    /// merge. Once all captures have ended the end is put on each link. At most two frames are put on a link.
    ///
    /// `Malformed` where the capture is malformed, `Read` where a read failed, and `OutOfMemory` where there was no
    /// memory for a piece, which is lost; then no frame is put.
    pub fn step<T: NamedTx, R: NamedRx>(
        &mut self,
        out: &mut Shuffle<T, R>,
    ) -> Result<Stepped, NodeFault>
        requires holds { ParserHolds self.old out.old None }
        requires none { IsEmpty out.old }
        ensures holds { MatchResult result (λ _. ParserHolds self.new out.new None) (λ bad. ParserHolds self.new out.new (Some bad)) }
        ensures goes { MatchResult result
            (λ _. ParserGoes (seen_of self.old out.old None) (seen_of self.new out.new None))
            (λ bad. ParserGoes (seen_of self.old out.old None) (seen_of self.new out.new (Some bad))) }
        ensures links { out.new.links ≡ out.old.links }
        ensures steps { IfOk result (StepsBy self.old self.new out.old out.new) }
        ensures unput { IfErr result (λ _. out.new ≡ out.old) }
        ensures causes { IfErr result (λ bad. ParserMeets (seen_of self.old out.old None) (seen_of self.new out.new (Some bad)) bad) }
    {
        step_over(
            self.job,
            self.me,
            self.parsers,
            self.groupers,
            &mut self.captures,
            &mut self.sources,
            &mut self.finished,
            out,
        )
    }

    /// Whether all captures have ended and the end was put on each link.
    pub fn finished(&self) -> bool
        ensures { result ≡ self.now.finished }
    {
        self.finished
    }

    /// The sources of its captures, as they were left.
    pub fn close(self) -> SourceList<S>
        ensures sources { map S.seen result.items ≡ self.entry.sources }
    {
        let ParserSteps {
            job: _,
            me: _,
            parsers: _,
            groupers: _,
            captures: _,
            sources,
            finished: _,
        } = self;
        sources
    }

    /// How many records of a capture of its own were taken up since its last mark.
    pub fn behind(&self, capture: u32) -> u32
        requires there { capture / self.now.parsers < length self.now.behind }
        ensures { result ≡ slice_index_or self.now.behind (capture / self.now.parsers) 0 }
    {
        self.captures[(capture / self.parsers) as usize].behind
    }

    /// How many bytes of a capture of its own are in memory beside the piece that is read.
    pub fn held(&self, capture: u32) -> u64
        requires there { capture / self.now.parsers < length self.now.held }
        ensures { result ≡ slice_index_or self.now.held (capture / self.now.parsers) 0 }
    {
        self.captures[(capture / self.parsers) as usize]
            .reading
            .held()
    }
}
