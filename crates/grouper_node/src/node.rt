//! A grouper between its parsers and the query processors.
ghost use Rattle.std.specs.Prelude.{◌≡◌, ◌<◌, ◌≤◌, ℕ, true, false, All, Some, None, Ok, Err, IfOk, IfErr, MatchResult, length, slice_index_or};
ghost use Rattle.credit_link.specs.declared.turn.NodeFault.{NodeFault as FaultSeen};
ghost use Rattle.credit_link.specs.declared.turn.Turn.TheVariants.{Idle};
ghost use Rattle.credit_link.specs.Ends.{TxSeen, RxSeen};
ghost use Rattle.credit_link.specs.Frames.{capped};
ghost use Rattle.credit_link.specs.Joined.{AreOneLink};
ghost use Rattle.shuffle_poll.specs.Shuffles.{row_of};
ghost use Rattle.summary_spec.specs.Job.{declared_of};
ghost use Rattle.round_law.specs.Rows.{TurnSays, TurnTells};
ghost use Rattle.round_law.specs.Waits.{IsDone};
ghost use Rattle.node_lanes.specs.Ends.{given_on};
ghost use Rattle.node_lanes.specs.Lending.{ShowsOut};
ghost use Rattle.node_lanes.specs.Pulling.{ChangesLink};
ghost use Rattle.net_law.specs.Ends.{tx_at};
ghost use Rattle.net_law.specs.Groupers.{GrouperStands, GrouperGoes, GrouperMeets, GrouperRests, grouper_view, grouper_tells};
ghost use Rattle.net_law.specs.Starts.{IsNewTx, IsNewRx, new_grouper};
ghost use Rattle.grouper_node.specs.Nodes.{LendsItsOuts};

use crate::noting::{new_orders, new_state};
use crate::work::Work;
use credit_link::{
    LinkRow, LinkRx, LinkRxList, LinkTxList, NamedRx, NamedTx, NodeFault, RingRx, RingTx, Turn,
};
use node_lanes::LendsOut;
use shuffle_poll::Shuffle;
use std::alloc::Global;
use std::marker::Model;
use summary_spec::Job;

/// A grouper: links in from the parsers, and links out to the query processors. Contracts see its job, its number
/// among the groupers, the credits of its links, both kinds of links, and the fault that it answers again.
#[derive(Drop)]
pub struct GrouperNode<'a, T: NamedTx, R: NamedRx> {
    work: Work<'a, T, R>,
    /// The fault that it met, after which it does nothing.
    fault: Option<NodeFault>,
}

impl<'a, T: NamedTx, R: NamedRx> Model for GrouperNode<'a, T, R> {
    ghost use Rattle.net_law.specs.Groupers.{GrouperSeen};

    ghost Value = { GrouperSeen };

    ghost use Rattle.std.specs.Coded.{codes};
    ghost use Rattle.net_law.specs.Codes.{expression_code};

    ghost coded = { Prim.hlevel (codes, expression_code) };

    ghost use Rattle.grouper_node.specs.Works.{grouper_of};
    ghost use Rattle.grouper_node.specs.Nodes.{NodeHolds};

    ghost view = { λ n. grouper_of n.work n.fault };

    ghost invariant = { λ n. NodeHolds n.work n.fault };
}

impl<'a, T: NamedTx, R: NamedRx> GrouperNode<'a, T, R> {
    /// The grouper of this number among so many, from 0, over 1 to 16 new links in and 1 to 16 new links out of as many
    /// credits. It is refused for want of memory alone, and then hands the links back. It takes all memory that it
    /// ever needs, but for the summaries and groups that it holds.
    pub fn new(
        alloc: Global,
        job: &'a Job,
        me: u32,
        groupers: u32,
        ins: LinkRxList<R, T>,
        outs: LinkTxList<T, R>,
    ) -> Result<Self, (LinkRxList<R, T>, LinkTxList<T, R>)>
        requires place { (me < groupers) × (groupers ≤ 16) }
        requires ins_few { (1 ≤ length ins.items) × (length ins.items ≤ 16) }
        requires outs_few { (1 ≤ length outs.items) × (length outs.items ≤ 16) }
        requires new_ins { All (IsNewRx (tx_at outs.items 0).credits) ins.items }
        requires new_outs { All (IsNewTx (tx_at outs.items 0).credits) outs.items }
        ensures fresh { IfOk result (λ node. node ≡ new_grouper (declared_of job.now) me groupers (tx_at outs.items 0).credits ins.items outs.items) }
        ensures stands { IfOk result (λ node. GrouperStands node) }
        ensures refused { IfErr result (λ links. (links.0.items ≡ ins.items) × (links.1.items ≡ outs.items)) }
    {
        let parsers = ins.len() as u32;
        let processors = outs.len() as u32;
        let credits = outs.get(0).credits();
        let Ok(orders) = new_orders(alloc, parsers) else {
            return Err((ins, outs));
        };
        let state = new_state(alloc, job, me, processors);
        match Shuffle::new(alloc, outs) {
            Ok(shuffle) => Ok(GrouperNode {
                work: Work {
                    job,
                    me,
                    groupers,
                    processors,
                    credits,
                    ins,
                    orders,
                    outs: shuffle,
                    state,
                },
                fault: None,
            }),
            Err(no) => Err((ins, no.links)),
        }
    }

    /// Moves what can be moved: bytes of at most `cut` at once through each pipe, frames off the links in, and
    /// groups, marks and the end onto the links out. The first fault is answered again by each later turn; in a fault
    /// links in are counted first, and links out behind them.
    pub fn turn(&mut self, cut: u32) -> Result<Turn, NodeFault>
        requires { 0 < cut }
        ensures stands { GrouperStands self.new }
        ensures goes { GrouperGoes self.old self.new }
        ensures says { IfOk result (λ turn. grouper_tells self.old → TurnSays self.old.credits (grouper_view self.old) (grouper_view self.new) turn) }
        ensures tells { IfOk result (λ turn. grouper_tells self.old → TurnTells (grouper_view self.old) (grouper_view self.new) turn) }
        ensures rests { result ≡ Ok Idle → GrouperRests self.new }
        ensures fault { MatchResult result (λ _. self.new.fault ≡ None) (λ bad. self.new.fault ≡ Some bad) }
        ensures again { (bad : FaultSeen) → self.old.fault ≡ Some bad → (result ≡ Err bad) × (self.new ≡ self.old) }
        ensures causes { self.old.fault ≡ None → IfErr result (λ bad. GrouperMeets self.old self.new bad) }
    {
        match self.fault {
            Some(bad) => Err(bad),
            None => match self.work.turn(cut) {
                Ok(turn) => Ok(turn),
                Err(bad) => {
                    self.fault = Some(bad);
                    Err(bad)
                }
            },
        }
    }

    /// The fault that it met, which each later turn answers again, or None.
    pub fn fault(&self) -> Option<NodeFault>
        ensures { result ≡ self.now.fault }
    {
        self.fault
    }

    /// Whether it has met no fault, has taken and granted all that comes, and has put and sent all that is due.
    pub fn done(&self) -> bool
        ensures done { result ≡ true → (self.now.fault ≡ None) × IsDone (grouper_view self.now) }
        ensures not { result ≡ false → ¬ ((self.now.fault ≡ None) × IsDone (grouper_view self.now)) }
        ensures stands { GrouperStands self.now }
    {
        match self.fault {
            Some(_) => false,
            None => self.work.done(),
        }
    }

    /// The links in and the links out, as it leaves them. Frames that wait are dropped.
    pub fn close(self) -> (LinkRxList<R, T>, LinkTxList<T, R>)
        ensures ins { result.0.items ≡ self.entry.ins }
        ensures outs { result.1.items ≡ self.entry.outs.links }
    {
        let GrouperNode { work, fault: _ } = self;
        let Work {
            job: _,
            me: _,
            groupers: _,
            processors: _,
            credits: _,
            ins,
            orders: _,
            outs,
            state: _,
        } = work;
        (ins, outs.into_links())
    }

    /// How many frames were taken off link `link` in, up to the end of the type.
    pub fn taken(&self, link: u32) -> u64
        requires { link < length self.now.ins }
        ensures taken { result ≡ capped (length (given_on self.now.ins link)) }
        ensures stands { GrouperStands self.now }
    {
        self.work.taken(link)
    }

    /// The row of one link out.
    pub fn row(&self, link: u32, from: u32, to: u32, taken: u64) -> LinkRow
        requires { link < length self.now.outs.links }
        ensures row { (d : TxSeen) → result ≡ row_of (slice_index_or self.now.outs.links link d) from to taken }
        ensures stands { GrouperStands self.now }
    {
        self.work.row(link, from, to, taken)
    }
}

impl<'a> GrouperNode<'a, RingTx, RingRx> {
    /// Shows both ends of link `j` in the rings of the link: it is lent to `sender`, whose link out of number
    /// `link` it is.
    pub fn look_in<S: LendsOut>(&mut self, j: u32, sender: &mut S, link: u32)
        requires there { (j < length self.old.ins) × (link < length (S.outs sender.old).links) }
        requires one { (d : TxSeen) (e : RxSeen) → AreOneLink (slice_index_or (S.outs sender.old).links link d) (slice_index_or self.old.ins j e) }
        ensures rest { self.new ≡ record self.old { ins = self.new.ins } }
        ensures changes { ChangesLink self.old.ins self.new.ins j }
        ensures lends { S.Lends sender.old sender.new }
        ensures shown { (e : RxSeen) → ShowsOut (S.outs sender.old) (S.outs sender.new) link (slice_index_or self.old.ins j e) (slice_index_or self.new.ins j e) }
        ensures stands { GrouperStands self.new }
    {
        self.work.look_in(j, sender, link);
    }
}

impl<'a> LendsOut for GrouperNode<'a, RingTx, RingRx> {
    ghost outs = { λ n. n.outs };

    ghost Lends = { LendsItsOuts };

    fn beside(&mut self, link: u32, rx: &mut LinkRx<RingRx, RingTx>) {
        self.work.beside(link, rx);
    }
}
