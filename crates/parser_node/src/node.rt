//! A parser.
ghost use Rattle.std.specs.Prelude.{◌≡◌, ◌<◌, ◌≤◌, ◌+◌, ◌/◌, ◌⊎◌, ℕ, true, false, List, [], None, Some, Ok, Err, IfOk, IfErr, All, MatchResult, length, map, slice_index_or};
ghost use Rattle.ds_base.specs.Outside.{IsFresh};
ghost use Rattle.credit_link.specs.Ends.{TxSeen};
ghost use Rattle.credit_link.specs.declared.turn.NodeFault.{NodeFault as Fault};
ghost use Rattle.credit_link.specs.declared.turn.Turn.TheVariants.{Idle, Done};
ghost use Rattle.shuffle_poll.specs.Shuffles.{row_of};
ghost use Rattle.summary_spec.specs.Job.{declared_of};
ghost use Rattle.round_law.specs.Rows.{TurnSays, TurnTells};
ghost use Rattle.round_law.specs.Waits.{IsDone};
ghost use Rattle.node_lanes.specs.Resting.{NoneHeld};
ghost use Rattle.net_law.specs.Parsers.{ParserStands, ParserGoes, ParserMeets, SomeWaits, HasReadAll, parser_view, parser_tells};
ghost use Rattle.net_law.specs.Starts.{AreOwn, AreNewOuts, new_parser, new_outs};
ghost use Rattle.parser_node.specs.Passing.{taken_in};

use crate::turn::{done_over, turn_over};
use credit_link::{LinkRow, LinkTxList, NamedRx, NamedTx, NodeFault, Turn};
use ds_base::{Source, SourceList};
use parser_steps::ParserSteps;
use shuffle_poll::Shuffle;
use std::alloc::Global;
use std::marker::Model;
use summary_spec::Job;

/// A parser: it reads its captures, the one with the least newest time first, and sends the summaries of accepted records
/// to the grouper of their shard, marks and ends of captures to all groupers, and the counts of each capture to the merge.
pub struct ParserNode<'a, S: Source, T: NamedTx, R: NamedRx> {
    /// Its captures and their sources.
    pub(crate) steps: ParserSteps<'a, S>,
    /// Its links out, one to each grouper and then that to the merge.
    pub(crate) out: Shuffle<T, R>,
    /// Why it goes no further.
    pub(crate) fault: Option<NodeFault>,
}

impl<'a, S: Source, T: NamedTx, R: NamedRx> Model for ParserNode<'a, S, T, R> {
    ghost use Rattle.net_law.specs.Parsers.{ParserSeen};

    ghost Value = { ParserSeen };

    ghost use Rattle.std.specs.Coded.{codes};
    ghost use Rattle.net_law.specs.Codes.{expression_code};

    ghost coded = { Prim.hlevel (codes, expression_code) };

    ghost use Rattle.parser_steps.specs.Seen.{seen_of};
    ghost use Rattle.parser_steps.specs.Holds.{ParserHolds};

    ghost view = { λ n. seen_of n.steps n.out n.fault };

    ghost invariant = { λ n. ParserHolds n.steps n.out n.fault };
}

impl<'a, S: Source, T: NamedTx, R: NamedRx> ParserNode<'a, S, T, R> {
    /// The parser of this number among so many, which has read nothing: `sources` has the source of each capture of its
    /// own, in rising order, and `out` a new link to each of so many groupers and then one to the merge. It is refused for
    /// want of memory alone, and then hands back what was moved in.
    pub fn new(
        alloc: Global,
        job: &'a Job,
        me: u32,
        parsers: u32,
        groupers: u32,
        sources: SourceList<S>,
        out: Shuffle<T, R>,
    ) -> Result<Self, (SourceList<S>, Shuffle<T, R>)>
        requires place { (me < parsers) × (parsers ≤ 16) }
        requires groupers { (1 ≤ groupers) × (groupers ≤ 16) × (length out.links ≡ groupers + 1) }
        requires own { AreOwn (new_parser (declared_of job.now) me parsers 0 (map S.seen sources.items) []) }
        requires fresh { All IsFresh (map S.seen sources.items) }
        requires outs { (out ≡ new_outs out.links) × ((credits : ℕ) × AreNewOuts credits out.links) }
        ensures made { IfOk result (λ node. (credits : ℕ) → AreNewOuts credits out.links → node ≡ new_parser (declared_of job.now) me parsers credits (map S.seen sources.items) out.links) }
        ensures stands { IfOk result (λ node. ParserStands node) }
        ensures refused { IfErr result (λ back. (back.0 ≡ sources) × (back.1 ≡ out)) }
    {
        match ParserSteps::new(alloc, job, me, parsers, groupers, sources) {
            Ok(steps) => Ok(ParserNode {
                steps,
                out,
                fault: None,
            }),
            Err(sources) => Err((sources, out)),
        }
    }

    /// One turn: a poll of the links, and steps with polls behind them, until a frame waits, all captures have ended, or
    /// 1,024 steps were made. So where no frame waits at its end and some capture goes on, at least 960 of its steps read
    /// a piece or took up a record. A fault is kept, and every later turn answers it again. No more than `cut` bytes go over
    /// a pipe in one poll.
    pub fn turn(&mut self, cut: u32) -> Result<Turn, NodeFault>
        requires { 0 < cut }
        ensures stands { ParserStands self.new }
        ensures goes { ParserGoes self.old self.new }
        ensures says { IfOk result (λ turn. parser_tells self.old → TurnSays self.old.credits (parser_view self.old) (parser_view self.new) turn) }
        ensures tells { IfOk result (λ turn. parser_tells self.old → TurnTells (parser_view self.old) (parser_view self.new) turn) }
        ensures idle { IfOk result (λ turn. turn ≡ Idle → SomeWaits self.new.outs ⊎ HasReadAll self.new) }
        ensures done { IfOk result (λ turn. turn ≡ Done → HasReadAll self.new) }
        ensures works { IfOk result (λ _. NoneHeld self.new.outs → ¬ HasReadAll self.new → taken_in self.old + 960 ≤ taken_in self.new) }
        ensures fault { MatchResult result (λ _. self.new.fault ≡ None) (λ bad. self.new.fault ≡ Some bad) }
        ensures again { (bad : Fault) → self.old.fault ≡ Some bad → (result ≡ Err bad) × (self.new ≡ self.old) }
        ensures causes { self.old.fault ≡ None → IfErr result (λ bad. ParserMeets self.old self.new bad) }
    {
        if let Some(bad) = self.fault {
            return Err(bad);
        }
        match turn_over(&mut self.steps, &mut self.out, cut) {
            Ok(turn) => Ok(turn),
            Err(bad) => {
                self.fault = Some(bad);
                Err(bad)
            }
        }
    }

    /// The fault that it met, which each later turn answers again, or None.
    pub fn fault(&self) -> Option<NodeFault>
        ensures { result ≡ self.now.fault }
    {
        self.fault
    }

    /// Whether it has met no fault, has read all captures to their ends, and has put and sent all that is due.
    pub fn done(&self) -> bool
        ensures done { result ≡ true → (self.now.fault ≡ None) × IsDone (parser_view self.now) }
        ensures not { result ≡ false → ¬ ((self.now.fault ≡ None) × IsDone (parser_view self.now)) }
        ensures stands { ParserStands self.now }
    {
        match self.fault {
            Some(_) => false,
            None => done_over(&self.steps, &self.out),
        }
    }

    /// The sources of its captures and its links, as they were left.
    pub fn close(self) -> (SourceList<S>, LinkTxList<T, R>)
        ensures sources { map S.seen result.0.items ≡ self.entry.sources }
        ensures links { result.1.items ≡ self.entry.outs.links }
    {
        let ParserNode {
            steps,
            out,
            fault: _,
        } = self;
        (steps.close(), out.into_links())
    }

    /// How many records of a capture of its own were taken up since its last mark, at most 31.
    pub fn behind(&self, capture: u32) -> u32
        requires { capture / self.now.parsers < length self.now.reads }
        ensures behind { result ≡ slice_index_or self.now.behind (capture / self.now.parsers) 0 }
        ensures few { result < 32 }
    {
        self.steps.behind(capture)
    }

    /// How many bytes of a capture of its own are in memory beside the piece that is read, at most 16,781,311.
    pub fn held(&self, capture: u32) -> u64
        requires { capture / self.now.parsers < length self.now.reads }
        ensures held { result ≡ slice_index_or self.now.held (capture / self.now.parsers) 0 }
        ensures few { result ≤ 16781311 }
    {
        self.steps.held(capture)
    }

    /// The row of one link.
    pub fn row(&self, link: u32, from: u32, to: u32, taken: u64) -> LinkRow
        requires { link < length self.now.outs.links }
        ensures { (d : TxSeen) → result ≡ row_of (slice_index_or self.now.outs.links link d) from to taken }
    {
        self.out.row(link, from, to, taken)
    }
}
