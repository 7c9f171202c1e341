//! The merge between its parsers and query processors and its sink.
ghost use Rattle.std.specs.Prelude.{◌≡◌, ◌<◌, ◌≤◌, ◌+◌, ◌↔◌, ℕ, All, true, None, Some, Err, IfOk, IfErr, MatchResult, length, slice_index_or};
ghost use Rattle.credit_link.specs.declared.turn.NodeFault.{NodeFault};
ghost use Rattle.credit_link.specs.Ends.{TxSeen, RxSeen};
ghost use Rattle.credit_link.specs.Frames.{capped};
ghost use Rattle.credit_link.specs.Joined.{AreOneLink};
ghost use Rattle.summary_spec.specs.Job.{declared_of};
ghost use Rattle.round_law.specs.Rows.{TurnSays, TurnTells};
ghost use Rattle.round_law.specs.Waits.{IsDone};
ghost use Rattle.node_lanes.specs.Ends.{given_on};
ghost use Rattle.node_lanes.specs.Lending.{ShowsOut};
ghost use Rattle.node_lanes.specs.Pulling.{ChangesLink};
ghost use Rattle.net_law.specs.Merges.{MergeStands, MergeGoes, MergeMeets, MergeRests, merge_view, merge_tells};
ghost use Rattle.net_law.specs.Starts.{IsNewRx, new_merge};

use crate::noting::{new_answers, new_counts};
use crate::work::Work;
use credit_link::{LinkRxList, NamedRx, NamedTx, NodeFault, RingRx, RingTx, Turn};
use ds_base::Sink;
use ghost_list::GhostList;
use merge_state::MergeState;
use node_lanes::LendsOut;
use std::alloc::Global;
use std::marker::Model;
use summary_spec::Job;

/// The merge: links in from the parsers and behind them from the query processors, and a sink that is lent to it.
/// Contracts see its job, the credits of its links, these links, what it sees of the sink and what that has taken, the
/// fault that it answers again, and the name of the reference to the sink.
#[derive(Drop)]
pub struct MergeNode<'a, O: Sink, T: NamedTx, R: NamedRx> {
    work: Work<'a, O, T, R>,
    /// The fault that it met, after which it does nothing.
    fault: Option<NodeFault>,
}

impl<'a, O: Sink, T: NamedTx, R: NamedRx> Model for MergeNode<'a, O, T, R> {
    ghost use Rattle.result_merge.specs.Nodes.{MergeLent};

    ghost Value = { MergeLent };

    ghost use Rattle.std.specs.Coded.{codes};
    ghost use Rattle.net_law.specs.Codes.{expression_code};

    ghost coded = { Prim.hlevel (codes, expression_code) };

    ghost use Rattle.result_merge.specs.Nodes.{lent_of, NodeHolds};

    ghost view = { λ n. lent_of n.work n.fault };

    ghost invariant = { λ n. NodeHolds n.work n.fault };
}

impl<'a, O: Sink, T: NamedTx, R: NamedRx> MergeNode<'a, O, T, R> {
    /// A new merge over new links of so many credits: first one of each of 1 to 16 parsers, then one of each of 1 to
    /// 16 processors. It is refused for want of memory alone; then it hands the links and the sink back, and nothing
    /// was written. It takes all memory that it ever needs, but for answers that wait, the rows of the profile, and the
    /// lines of one turn.
    pub fn new(
        alloc: Global,
        job: &'a Job,
        parsers: u32,
        credits: u32,
        ins: LinkRxList<R, T>,
        sink: &'a mut O,
    ) -> Result<Self, (LinkRxList<R, T>, &'a mut O)>
        requires parsers { (1 ≤ parsers) × (parsers ≤ 16) }
        requires processors { (parsers < length ins.items) × (length ins.items ≤ parsers + 16) }
        requires new_ins { All (IsNewRx credits) ins.items }
        ensures fresh { IfOk result (λ node. node.merge ≡ new_merge (declared_of job.now) parsers credits ins.items (O.seen sink.old)) }
        ensures lent { IfOk result (λ node. node.lent ≡ sink.entry.ghost_name) }
        ensures stands { IfOk result (λ node. MergeStands node.merge) }
        ensures refused { IfErr result (λ back. back.0.items ≡ ins.items) }
        ensures returned { IfErr result (λ back. (back.1.ghost_name ≡ sink.entry.ghost_name) × (O.seen back.1.now ≡ O.seen sink.old)) }
    {
        let processors = ins.len() as u32 - parsers;
        let Ok(counts) = new_counts(alloc, parsers) else {
            return Err((ins, sink));
        };
        let Ok(answers) = new_answers(alloc, processors) else {
            return Err((ins, sink));
        };
        match MergeState::new(alloc, job, processors) {
            Ok(state) => Ok(MergeNode {
                work: Work {
                    alloc,
                    job,
                    parsers,
                    credits,
                    ins,
                    counts,
                    answers,
                    state,
                    sink,
                    gained: GhostList::new(),
                },
                fault: None,
            }),
            Err(_) => Err((ins, sink)),
        }
    }

    /// Moves what can be moved: bytes of at most `cut` at once through each pipe, and frames off the links in; then all
    /// lines that are due are written. A write that fails is a fault, of which the sink has taken a front of these lines.
    /// The first fault is answered again by each later turn.
    pub fn turn(&mut self, cut: u32) -> Result<Turn, NodeFault>
        requires { 0 < cut }
        ensures stands { MergeStands self.new.merge }
        ensures goes { MergeGoes self.old.merge self.new.merge }
        ensures lent { self.new.lent ≡ self.old.lent }
        ensures says { IfOk result (λ turn. merge_tells self.old.merge → TurnSays self.old.merge.credits (merge_view self.old.merge) (merge_view self.new.merge) turn) }
        ensures tells { IfOk result (λ turn. merge_tells self.old.merge → TurnTells (merge_view self.old.merge) (merge_view self.new.merge) turn) }
        ensures rests { IfOk result (λ _. MergeRests self.new.merge) }
        ensures fault { MatchResult result (λ _. self.new.merge.fault ≡ None) (λ bad. self.new.merge.fault ≡ Some bad) }
        ensures again { (bad : NodeFault) → self.old.merge.fault ≡ Some bad → (result ≡ Err bad) × (self.new ≡ self.old) }
        ensures causes { self.old.merge.fault ≡ None → IfErr result (λ bad. MergeMeets self.old.merge self.new.merge bad) }
    {
        match self.fault {
            Some(bad) => Err(bad),
            None => match self.work.turn(cut) {
                Ok(turn) => Ok(turn),
                Err(bad) => {
                    self.fault = Some(bad);
                    Err(bad)
                }
            },
        }
    }

    /// Its links and its sink, as it leaves them.
    pub fn close(self) -> (LinkRxList<R, T>, &'a mut O)
        ensures ins { result.0.items ≡ self.entry.merge.ins }
        ensures sink { O.seen result.1.now ≡ self.entry.merge.sink }
        ensures lent { result.1.ghost_name ≡ self.entry.lent }
    {
        let MergeNode { work, fault: _ } = self;
        let Work {
            alloc: _,
            job: _,
            parsers: _,
            credits: _,
            ins,
            counts: _,
            answers: _,
            state: _,
            sink,
            gained: _,
        } = work;
        (ins, sink)
    }

    /// How many frames were taken off link `link`, up to the end of the type.
    pub fn taken(&self, link: u32) -> u64
        requires { link < length self.now.merge.ins }
        ensures taken { result ≡ capped (length (given_on self.now.merge.ins link)) }
        ensures stands { MergeStands self.now.merge }
    {
        self.work.taken(link)
    }

    /// The fault that it met, which each later turn answers again, or None.
    pub fn fault(&self) -> Option<NodeFault>
        ensures { result ≡ self.now.merge.fault }
    {
        self.fault
    }

    /// Whether it has met no fault, has taken and granted all frames, and all is written.
    pub fn done(&self) -> bool
        ensures done { result ≡ true → (self.now.merge.fault ≡ None) × IsDone (merge_view self.now.merge) }
        ensures not_done { self.now.merge.fault ≡ None → IsDone (merge_view self.now.merge) → result ≡ true }
        ensures stands { MergeStands self.now.merge }
    {
        match self.fault {
            None => self.work.has_taken_all(),
            Some(_) => false,
        }
    }
}

impl<'a, O: Sink> MergeNode<'a, O, RingTx, RingRx> {
    /// Shows both ends of link `j` in the rings of the link: it is lent to `sender`, whose link out of number
    /// `link` it is.
    pub fn look_in<S: LendsOut>(&mut self, j: u32, sender: &mut S, link: u32)
        requires there { (j < length self.old.merge.ins) × (link < length (S.outs sender.old).links) }
        requires one { (d : TxSeen) (e : RxSeen) → AreOneLink (slice_index_or (S.outs sender.old).links link d) (slice_index_or self.old.merge.ins j e) }
        ensures rest { self.new.merge ≡ record self.old.merge { ins = self.new.merge.ins } }
        ensures lent { self.new.lent ≡ self.old.lent }
        ensures changes { ChangesLink self.old.merge.ins self.new.merge.ins j }
        ensures lends { S.Lends sender.old sender.new }
        ensures shown { (e : RxSeen) → ShowsOut (S.outs sender.old) (S.outs sender.new) link (slice_index_or self.old.merge.ins j e) (slice_index_or self.new.merge.ins j e) }
        ensures stands { MergeStands self.new.merge }
    {
        self.work.look_in(j, sender, link);
    }
}
