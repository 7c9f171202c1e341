//! The work of the merge over its links and its sink, as long as it meets no fault.
ghost use Rattle.std.specs.Prelude.{◌≡◌, ◌<◌, ◌≤◌, ◌∷◌, ◌++◌, ◌||◌, [], true, false, IfOk, IfErr, OnOk, OnErr, length, slice_index_or};
ghost use Rattle.credit_link.specs.Ends.{TxSeen, RxSeen};
ghost use Rattle.credit_link.specs.Frames.{capped, has_finish};
ghost use Rattle.credit_link.specs.Joined.{AreOneLink};
ghost use Rattle.credit_link.specs.declared.turn.NodeFault.TheVariants.{Write};
ghost use Rattle.ds_base.specs.Faults.{Rose};
ghost use Rattle.node_lanes.specs.Lending.{ShowsOut};
ghost use Rattle.node_lanes.specs.Ends.{given_on};
ghost use Rattle.node_lanes.specs.Resting.{HasTakenEach, SomeToTake};
ghost use Rattle.net_law.specs.Merges.{MergeRests};
ghost use Rattle.result_merge.specs.Works.{merge_of, noted, taken_on, IsSound};
ghost use Rattle.result_merge.specs.Steps.{Steps, Fails, Pumps, Pulls, HoldsNoted, TakesUp, Refuses, Grants, Takes, TakesOff, PushesDue, Writes, WritesDue, Passes, IsRest, Turns, LooksIn};

use crate::lines::{push_all, write_noted};
use crate::noting::{admit_answers, admit_counts};
use answer_order::AnswerOrder;
use credit_link::{LinkRxList, NamedRx, NamedTx, NodeFault, RingRx, RingTx, Turn};
use ds_base::{Sink, Text};
use frame_order::CountsOrder;
use ghost_list::GhostList;
use merge_state::{MergeState, links_tell};
use node_frames::Frame;
use node_lanes::{LendsOut, grant_at, lend_in, pull_at, pump_ins, refuse_order, taken_all};
use std::alloc::Global;
use std::marker::Model;
use summary_spec::Job;

/// How many passes a turn makes at most, behind its first.
const MORE_PASSES: u32 = 63;

/// The links and the sink of the merge, and what it keeps of what came.
#[derive(Drop)]
pub(crate) struct Work<'a, O: Sink, T: NamedTx, R: NamedRx> {
    /// Where the text of a turn takes its memory.
    pub(crate) alloc: Global,
    pub(crate) job: &'a Job,
    /// How many of the links in, the first ones, are from parsers.
    pub(crate) parsers: u32,
    /// How many frames may be held at once on each link.
    pub(crate) credits: u32,
    /// The links in, first one a parser and then one a processor.
    pub(crate) ins: LinkRxList<R, T>,
    /// For each parser, which frames may follow on its link.
    pub(crate) counts: Vec<CountsOrder>,
    /// For each processor, which frames may follow on its link.
    pub(crate) answers: Vec<AnswerOrder>,
    /// What is kept between frames.
    pub(crate) state: MergeState,
    /// Where the lines go.
    pub(crate) sink: &'a mut O,
    /// What the sink has taken since the start.
    pub(crate) gained: GhostList<u8>,
}

impl<'a, O: Sink, T: NamedTx, R: NamedRx> Model for Work<'a, O, T, R> {
    ghost use Rattle.result_merge.specs.Works.{WorkSeen};

    ghost Value = { WorkSeen };

    ghost use Rattle.std.specs.Coded.{codes};
    ghost use Rattle.net_law.specs.Codes.{expression_code};

    ghost coded = { Prim.hlevel (codes, expression_code) };

    ghost use Rattle.summary_spec.specs.Job.{declared_of};

    ghost view = { λ w. record { job = declared_of w.job.now; parsers = w.parsers; credits = w.credits; ins = w.ins.items; counts = w.counts.items; answers = w.answers.items; state = w.state; sink = O.Sink.seen w.sink.now; lent = w.sink.ghost_name; gained = w.gained.items } };
}

impl<'a, O: Sink, T: NamedTx, R: NamedRx> Work<'a, O, T, R> {
    /// A pass, and further ones while something moves, at most 64 in all; then all lines that are due are written.
    pub(crate) fn turn(&mut self, cut: u32) -> Result<Turn, NodeFault>
        requires sound { IsSound self.old × (0 < cut) }
        requires rests { MergeRests (merge_of self.old None) }
        ensures turns { IfOk result (λ turn. Turns turn self.old self.new) }
        ensures fails { IfErr result (λ bad. Fails self.old self.new bad) }
    {
        let moved = match self.pass(cut) {
            Ok(moved) => moved,
            Err(bad) => return Err(bad),
        };
        if !moved {
            return Ok(self.rest());
        }
        match self.go_on_and_write(cut) {
            Ok(()) => Ok(Turn::Moved),
            Err(bad) => Err(bad),
        }
    }

    /// Further passes, and the lines that are due behind them.
    fn go_on_and_write(&mut self, cut: u32) -> Result<(), NodeFault>
        requires { IsSound self.old × (0 < cut) }
        ensures writes { OnOk result (WritesDue self.old self.new) }
        ensures fails { IfErr result (λ bad. Fails self.old self.new bad) }
    {
        match self.go_on(cut) {
            Ok(()) => {}
            Err(bad) => return Err(bad),
        }
        match self.write_due() {
            Ok(()) => Ok(()),
            Err(bad) => Err(bad),
        }
    }

    /// Further passes, as long as something moves.
    fn go_on(&mut self, cut: u32) -> Result<(), NodeFault>
        requires { IsSound self.old × (0 < cut) }
        ensures steps { OnOk result (Steps self.old self.new) }
        ensures fails { IfErr result (λ bad. Fails self.old self.new bad) }
    {
        'passes: for _ in 0..MORE_PASSES {
            let moved = match self.pass(cut) {
                Ok(moved) => moved,
                Err(bad) => return Err(bad),
            };
            if !moved {
                return Ok(());
            }
        }
        Ok(())
    }

    /// What is left to do where nothing moved.
    fn rest(&self) -> Turn
        ensures { IsRest result self.now }
    {
        if !self.has_taken_all() {
            return Turn::Idle;
        }
        Turn::Done
    }

    /// Whether on each link in Finish was taken and no credit is owed.
    pub(crate) fn has_taken_all(&self) -> bool
        ensures all { result ≡ true → HasTakenEach self.now.ins }
        ensures not { result ≡ false → SomeToTake self.now.ins }
    {
        taken_all(&self.ins)
    }

    /// Moves bytes, and takes a frame off each link in that has one. True exactly where a byte moved or a frame
    /// was taken.
    fn pass(&mut self, cut: u32) -> Result<bool, NodeFault>
        requires { IsSound self.old × (0 < cut) }
        ensures passes { IfOk result (λ moved. Passes moved self.old self.new) }
        ensures fails { IfErr result (λ bad. Fails self.old self.new bad) }
    {
        let came = match self.pump(cut) {
            Ok(came) => came,
            Err(bad) => return Err(bad),
        };
        let took = match self.take_each() {
            Ok(took) => took,
            Err(bad) => return Err(bad),
        };
        let moved = either(came, took);
        Ok(moved)
    }

    /// Pumps the links in once. True exactly where a byte moved.
    fn pump(&mut self, cut: u32) -> Result<bool, NodeFault>
        requires { IsSound self.old × (0 < cut) }
        ensures pumps { IfOk result (λ moved. Pumps moved self.old self.new) }
        ensures fails { IfErr result (λ bad. Fails self.old self.new bad) }
    {
        let moved = match pump_ins(&mut self.ins, cut) {
            Ok(moved) => moved,
            Err(bad) => return Err(bad),
        };
        Ok(moved)
    }

    /// Takes a frame off each link in that has one. True exactly where one was taken.
    fn take_each(&mut self) -> Result<bool, NodeFault>
        requires { IsSound self.old }
        ensures takes { IfOk result (λ took. TakesOff took (length self.old.ins) self.old self.new) }
        ensures fails { IfErr result (λ bad. Fails self.old self.new bad) }
    {
        let count = self.links();
        let mut took = false;
        'links: for j in 0..count {
            let more = match self.take(j) {
                Ok(more) => more,
                Err(bad) => return Err(bad),
            };
            took = either(took, more);
        }
        Ok(took)
    }

    /// How many links in there are.
    fn links(&self) -> u32
        requires { IsSound self.now }
        ensures { result ≡ length self.now.ins }
    {
        self.ins.len() as u32
    }

    /// Takes the next frame of link `j` in up, and grants it. False: it has none.
    fn take(&mut self, j: u32) -> Result<bool, NodeFault>
        requires sound { IsSound self.old }
        requires there { j < length self.old.ins }
        ensures takes { IfOk result (λ took. Takes took j self.old self.new) }
        ensures fails { IfErr result (λ bad. Fails self.old self.new bad) }
    {
        if self.has_ended(j) {
            return Ok(false);
        }
        let frame = match self.pull(j) {
            Ok(Some(frame)) => frame,
            Ok(None) => return Ok(false),
            Err(bad) => return Err(bad),
        };
        match self.take_up(j, &frame) {
            Ok(()) => {
                self.grant(j);
                Ok(true)
            }
            Err(bad) => Err(bad),
        }
    }

    /// Whether link `j` in has ended.
    fn has_ended(&self, j: u32) -> bool
        requires { j < length self.now.ins }
        ensures { (d : RxSeen) → result ≡ has_finish (slice_index_or self.now.ins j d).given }
    {
        self.ins.get(j as u64).finished()
    }

    /// The next frame of link `j` in.
    fn pull(&mut self, j: u32) -> Result<Option<Frame>, NodeFault>
        requires sound { IsSound self.old }
        requires there { j < length self.old.ins }
        ensures pulls { IfOk result (λ pulled. Pulls pulled j self.old self.new) }
        ensures fails { IfErr result (λ bad. Fails self.old self.new bad) }
    {
        let pulled = match pull_at(&mut self.ins, j) {
            Ok(pulled) => pulled,
            Err(bad) => return Err(bad),
        };
        Ok(pulled)
    }

    /// Notes a frame that was pulled off link `j` in, and takes it up.
    fn take_up(&mut self, j: u32, frame: &Frame) -> Result<(), NodeFault>
        requires noted { HoldsNoted self.old × (j < length self.old.ins) }
        requires last { given_on self.old.ins j ≡ taken_on (noted self.old) j ++ frame.now ∷ [] }
        ensures takes { OnOk result (TakesUp self.old self.new j frame.now) }
        ensures refuses { IfErr result (λ bad. Refuses self.old self.new j frame.now bad) }
    {
        if j < self.parsers {
            self.take_counts(j, frame)
        } else {
            self.take_answers(j, frame)
        }
    }

    /// Notes a frame of a parser, whose link in is `j`, and takes it up.
    fn take_counts(&mut self, j: u32, frame: &Frame) -> Result<(), NodeFault>
        requires noted { HoldsNoted self.old × (j < length self.old.ins) }
        requires parser { j < self.old.parsers }
        requires last { given_on self.old.ins j ≡ taken_on (noted self.old) j ++ frame.now ∷ [] }
        ensures takes { OnOk result (TakesUp self.old self.new j frame.now) }
        ensures refuses { IfErr result (λ bad. Refuses self.old self.new j frame.now bad) }
    {
        if !admit_counts(&mut self.counts, self.job, self.parsers, j, frame) {
            return Err(refuse_order(&self.ins, j));
        }
        self.state.take_counts(frame);
        Ok(())
    }

    /// Notes a frame of a processor, whose link in is `j`, and takes it up.
    fn take_answers(&mut self, j: u32, frame: &Frame) -> Result<(), NodeFault>
        requires noted { HoldsNoted self.old × (j < length self.old.ins) }
        requires processor { self.old.parsers ≤ j }
        requires last { given_on self.old.ins j ≡ taken_on (noted self.old) j ++ frame.now ∷ [] }
        ensures takes { OnOk result (TakesUp self.old self.new j frame.now) }
        ensures refuses { IfErr result (λ bad. Refuses self.old self.new j frame.now bad) }
    {
        let processor = j - self.parsers;
        if !admit_answers(&mut self.answers, self.job, processor, frame) {
            return Err(refuse_order(&self.ins, j));
        }
        match self.state.take_answers(processor, frame) {
            Ok(()) => {}
            Err(_) => return Err(NodeFault::OutOfMemory),
        }
        Ok(())
    }

    /// Grants the frame that was pulled off link `j` in.
    fn grant(&mut self, j: u32)
        requires { (j < length self.old.ins) × ((d : RxSeen) → 0 < (slice_index_or self.old.ins j d).ungranted) }
        ensures grants { Grants self.old self.new j }
    {
        grant_at(&mut self.ins, j);
    }

    /// Writes all lines that are due.
    fn write_due(&mut self) -> Result<(), NodeFault>
        requires { IsSound self.old }
        ensures writes { OnOk result (WritesDue self.old self.new) }
        ensures fails { IfErr result (λ bad. Fails self.old self.new bad) }
    {
        let mut text = Text::new(self.alloc);
        match self.push_and_write(&mut text) {
            Ok(()) => Ok(()),
            Err(bad) => Err(bad),
        }
    }

    /// Puts all lines that are due onto a text that has none, and writes it.
    fn push_and_write(&mut self, text: &mut Text) -> Result<(), NodeFault>
        requires sound { IsSound self.old }
        requires empty { text.old.items ≡ [] }
        ensures writes { OnOk result (WritesDue self.old self.new) }
        ensures fails { IfErr result (λ bad. Fails self.old self.new bad) }
    {
        match self.push_due(text) {
            Ok(()) => {}
            Err(bad) => return Err(bad),
        }
        match self.write(text) {
            Ok(()) => Ok(()),
            Err(bad) => Err(bad),
        }
    }

    /// Puts all lines that are due onto a text that has none.
    fn push_due(&mut self, text: &mut Text) -> Result<(), NodeFault>
        requires sound { IsSound self.old }
        requires empty { text.old.items ≡ [] }
        ensures pushes { OnOk result (PushesDue self.old self.new text.new.items) }
        ensures fails { IfErr result (λ bad. Fails self.old self.new bad) }
    {
        links_tell();
        match push_all(&mut self.state, self.job, text) {
            Ok(()) => {}
            Err(_) => return Err(NodeFault::OutOfMemory),
        }
        Ok(())
    }

    /// Writes a text.
    fn write(&mut self, text: &Text) -> Result<(), NodeFault>
        ensures writes { Writes self.old self.new text.now.items }
        ensures whole { OnOk result (self.new.gained ≡ self.old.gained ++ text.now.items) }
        ensures calm { OnOk result (self.new.sink.faults ≡ self.old.sink.faults) }
        ensures failed { IfErr result (λ bad. (bad ≡ Write) × Rose self.old.sink.faults self.new.sink.faults) }
    {
        match write_noted(self.sink, &mut self.gained, text.as_str().as_bytes()) {
            Ok(()) => Ok(()),
            Err(_) => Err(NodeFault::Write),
        }
    }

    /// How many frames were taken off link `link` in, up to the end of the type.
    pub(crate) fn taken(&self, link: u32) -> u64
        requires { link < length self.now.ins }
        ensures { result ≡ capped (length (given_on self.now.ins link)) }
    {
        self.ins.get(link as u64).taken()
    }
}

impl<'a, O: Sink> Work<'a, O, RingTx, RingRx> {
    /// Lends link `j` in to the node that sends over it.
    pub(crate) fn look_in<S: LendsOut>(&mut self, j: u32, sender: &mut S, link: u32)
        requires there { (j < length self.old.ins) × (link < length (S.outs sender.old).links) }
        requires one { (d : TxSeen) (e : RxSeen) → AreOneLink (slice_index_or (S.outs sender.old).links link d) (slice_index_or self.old.ins j e) }
        ensures looks { LooksIn self.old self.new j }
        ensures lends { S.Lends sender.old sender.new }
        ensures shown { (e : RxSeen) → ShowsOut (S.outs sender.old) (S.outs sender.new) link (slice_index_or self.old.ins j e) (slice_index_or self.new.ins j e) }
    {
        lend_in(&mut self.ins, j, sender, link);
    }
}

// The one or the other.
fn either(a: bool, b: bool) -> bool
    ensures { result ≡ a || b }
{
    a || b
}
