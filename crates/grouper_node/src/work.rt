//! The work of a grouper over its links, as long as it meets no fault.
ghost use Rattle.std.specs.Prelude.{◌≡◌, ◌<◌, ◌||◌, ℕ, true, false, IfOk, IfErr, OnOk, length, slice_index_or};
ghost use Rattle.credit_link.specs.Ends.{TxSeen, RxSeen};
ghost use Rattle.credit_link.specs.Frames.{capped, has_finish};
ghost use Rattle.credit_link.specs.Joined.{AreOneLink};
ghost use Rattle.shuffle_poll.specs.Shuffles.{row_of};
ghost use Rattle.node_lanes.specs.Lending.{ShowsOut};
ghost use Rattle.node_lanes.specs.Ends.{given_on};
ghost use Rattle.node_lanes.specs.Resting.{NoneHeld};
ghost use Rattle.grouper_node.specs.Works.{IsSound};
ghost use Rattle.grouper_node.specs.Steps.{Steps, Fails, Pumps, Polls, PutsDue, Sends, Pulls, HoldsNoted, TakesUp, Refuses, Grants, Takes, TakesOff, Passes, IsRest, Turns, LooksIn, LooksOut};

use crate::noting::{admit_at, put_frame};
use credit_link::{LinkRow, LinkRx, LinkRxList, NamedRx, NamedTx, NodeFault, RingRx, RingTx, Turn};
use frame_order::{ItemLink, ItemOrder};
use grouper_state::GrouperState;
use node_frames::Frame;
use node_lanes::{
    LendsOut, grant_at, lend_in, poll_outs, pull_at, pump_ins, refuse_order, taken_all,
};
use shuffle_poll::Shuffle;
use std::marker::Model;
use summary_spec::Job;

/// How many passes a turn makes at most, behind its first.
const MORE_PASSES: u32 = 63;

/// The links of a grouper, and what it keeps of what came on them.
#[derive(Drop)]
pub(crate) struct Work<'a, T: NamedTx, R: NamedRx> {
    pub(crate) job: &'a Job,
    /// Its number among so many groupers, from 0.
    pub(crate) me: u32,
    pub(crate) groupers: u32,
    /// How many links out there are.
    pub(crate) processors: u32,
    /// How many frames may be held at once on each link.
    pub(crate) credits: u32,
    /// The links in, one a parser.
    pub(crate) ins: LinkRxList<R, T>,
    /// For each link in, which frames may follow on it.
    pub(crate) orders: Vec<ItemOrder>,
    /// The links out, one a query processor.
    pub(crate) outs: Shuffle<T, R>,
    /// What is kept between frames.
    pub(crate) state: GrouperState,
}

impl<'a, T: NamedTx, R: NamedRx> Model for Work<'a, T, R> {
    ghost use Rattle.grouper_node.specs.Works.{WorkSeen};

    ghost Value = { WorkSeen };

    ghost use Rattle.std.specs.Coded.{codes};
    ghost use Rattle.net_law.specs.Codes.{expression_code};

    ghost coded = { Prim.hlevel (codes, expression_code) };

    ghost use Rattle.summary_spec.specs.Job.{declared_of};

    ghost view = { λ w. record { job = declared_of w.job.now; me = w.me; groupers = w.groupers; processors = w.processors; credits = w.credits; ins = w.ins.items; orders = w.orders.items; outs = w.outs; state = w.state } };
}

impl<'a, T: NamedTx, R: NamedRx> Work<'a, T, R> {
    /// A pass, and further ones while something moves, at most 64 in all.
    pub(crate) fn turn(&mut self, cut: u32) -> Result<Turn, NodeFault>
        requires sound { IsSound self.old }
        requires cut { 0 < cut }
        ensures turns { IfOk result (λ turn. Turns turn self.old self.new) }
        ensures fails { IfErr result (λ bad. Fails self.old self.new bad) }
    {
        let moved = match self.pass(cut) {
            Ok(moved) => moved,
            Err(bad) => return Err(bad),
        };
        if !moved {
            return Ok(self.rest());
        }
        match self.go_on(cut) {
            Ok(()) => Ok(Turn::Moved),
            Err(bad) => Err(bad),
        }
    }

    /// Further passes, as long as something moves.
    fn go_on(&mut self, cut: u32) -> Result<(), NodeFault>
        requires sound { IsSound self.old }
        requires cut { 0 < cut }
        ensures steps { OnOk result (Steps self.old self.new) }
        ensures fails { IfErr result (λ bad. Fails self.old self.new bad) }
    {
        'passes: for _ in 0..MORE_PASSES {
            let moved = match self.pass(cut) {
                Ok(moved) => moved,
                Err(bad) => return Err(bad),
            };
            if !moved {
                return Ok(());
            }
        }
        Ok(())
    }

    /// What is left to do where nothing moved.
    fn rest(&self) -> Turn
        ensures { IsRest result self.now }
    {
        if !taken_all(&self.ins) {
            return Turn::Idle;
        }
        if !self.outs.settled() {
            return Turn::Idle;
        }
        Turn::Done
    }

    /// Moves bytes, and takes a frame off each link in that has one. True exactly where a byte moved or a frame
    /// was taken.
    fn pass(&mut self, cut: u32) -> Result<bool, NodeFault>
        requires sound { IsSound self.old }
        requires cut { 0 < cut }
        ensures passes { IfOk result (λ moved. Passes moved self.old self.new) }
        ensures fails { IfErr result (λ bad. Fails self.old self.new bad) }
    {
        let came = match self.pump(cut) {
            Ok(came) => came,
            Err(bad) => return Err(bad),
        };
        let went = match self.send(cut) {
            Ok(went) => went,
            Err(bad) => return Err(bad),
        };
        let took = match self.take_each(cut) {
            Ok(took) => took,
            Err(bad) => return Err(bad),
        };
        let behind = either(went, took);
        let moved = either(came, behind);
        Ok(moved)
    }

    /// Pumps the links in once. True exactly where a byte moved.
    fn pump(&mut self, cut: u32) -> Result<bool, NodeFault>
        requires sound { IsSound self.old }
        requires cut { 0 < cut }
        ensures pumps { IfOk result (λ moved. Pumps moved self.old self.new) }
        ensures fails { IfErr result (λ bad. Fails self.old self.new bad) }
    {
        pump_ins(&mut self.ins, cut)
    }

    /// Polls the links out, and puts what is due as long as no frame waits. True exactly where a byte moved.
    fn send(&mut self, cut: u32) -> Result<bool, NodeFault>
        requires sound { IsSound self.old }
        requires cut { 0 < cut }
        ensures sends { IfOk result (λ moved. Sends moved self.old self.new) }
        ensures fails { IfErr result (λ bad. Fails self.old self.new bad) }
    {
        let mut moved = match self.poll(cut) {
            Ok(moved) => moved,
            Err(bad) => return Err(bad),
        };
        'due: while self.is_free() {
            let put = match self.put_due() {
                Ok(put) => put,
                Err(bad) => return Err(bad),
            };
            if !put {
                return Ok(moved);
            }
            let more = match self.poll(cut) {
                Ok(more) => more,
                Err(bad) => return Err(bad),
            };
            moved = either(moved, more);
        }
        Ok(moved)
    }

    /// Polls the links out once. True exactly where a byte moved. Links out are counted behind those in.
    fn poll(&mut self, cut: u32) -> Result<bool, NodeFault>
        requires sound { IsSound self.old }
        requires cut { 0 < cut }
        ensures polls { IfOk result (λ moved. Polls moved self.old self.new) }
        ensures fails { IfErr result (λ bad. Fails self.old self.new bad) }
    {
        let first = self.ins.len() as u32;
        poll_outs(&mut self.outs, first, cut)
    }

    /// Whether no frame waits.
    fn is_free(&self) -> bool
        ensures none { result ≡ true → NoneHeld self.now.outs }
        ensures some { result ≡ false → ¬ NoneHeld self.now.outs }
    {
        self.outs.waiting() == 0
    }

    /// Puts the next frame that is due on its links. False: none is.
    fn put_due(&mut self) -> Result<bool, NodeFault>
        requires sound { IsSound self.old }
        requires none { NoneHeld self.old.outs }
        ensures puts { IfOk result (λ put. PutsDue put self.old self.new) }
        ensures fails { IfErr result (λ bad. Fails self.old self.new bad) }
    {
        match self.state.next_due() {
            Ok(Some(due)) => {
                put_frame(&mut self.outs, self.processors, due);
                Ok(true)
            }
            Ok(None) => Ok(false),
            Err(_) => Err(NodeFault::OutOfMemory),
        }
    }

    /// Takes a frame off each link in that has one, and sends what follows from it. True exactly where one was
    /// taken.
    fn take_each(&mut self, cut: u32) -> Result<bool, NodeFault>
        requires sound { IsSound self.old }
        requires cut { 0 < cut }
        ensures takes { IfOk result (λ took. TakesOff took (length self.old.ins) self.old self.new) }
        ensures fails { IfErr result (λ bad. Fails self.old self.new bad) }
    {
        let count = self.links();
        let mut took = false;
        'links: for j in 0..count {
            let more = match self.take_and_send(j, cut) {
                Ok(more) => more,
                Err(bad) => return Err(bad),
            };
            took = either(took, more);
        }
        Ok(took)
    }

    /// How many links in there are.
    fn links(&self) -> u32
        requires { IsSound self.now }
        ensures { result ≡ length self.now.ins }
    {
        self.ins.len() as u32
    }

    /// Takes the next frame of link `j` in, and sends what follows from it. False: it has none, or a frame waits.
    fn take_and_send(&mut self, j: u32, cut: u32) -> Result<bool, NodeFault>
        requires sound { IsSound self.old }
        requires cut { 0 < cut }
        requires there { j < length self.old.ins }
        ensures takes { IfOk result (λ took. Takes took j self.old self.new) }
        ensures fails { IfErr result (λ bad. Fails self.old self.new bad) }
    {
        let took = match self.take(j) {
            Ok(took) => took,
            Err(bad) => return Err(bad),
        };
        if !took {
            return Ok(false);
        }
        match self.send(cut) {
            Ok(_) => Ok(true),
            Err(bad) => Err(bad),
        }
    }

    /// Takes the next frame of link `j` in, gathers what it brings, and grants it. False: it has none, or a frame
    /// waits.
    fn take(&mut self, j: u32) -> Result<bool, NodeFault>
        requires sound { IsSound self.old }
        requires there { j < length self.old.ins }
        ensures takes { IfOk result (λ took. Takes took j self.old self.new) }
        ensures fails { IfErr result (λ bad. Fails self.old self.new bad) }
    {
        if !self.is_free() {
            return Ok(false);
        }
        if self.has_ended(j) {
            return Ok(false);
        }
        let frame = match self.pull(j) {
            Ok(Some(frame)) => frame,
            Ok(None) => return Ok(false),
            Err(bad) => return Err(bad),
        };
        match self.take_up(j, &frame) {
            Ok(()) => {
                self.grant(j);
                Ok(true)
            }
            Err(bad) => Err(bad),
        }
    }

    /// Whether link `j` in has ended.
    fn has_ended(&self, j: u32) -> bool
        requires { j < length self.now.ins }
        ensures { (d : RxSeen) → result ≡ has_finish (slice_index_or self.now.ins j d).given }
    {
        self.ins.get(j as u64).finished()
    }

    /// The next frame of link `j` in.
    fn pull(&mut self, j: u32) -> Result<Option<Frame>, NodeFault>
        requires sound { IsSound self.old }
        requires there { j < length self.old.ins }
        ensures pulls { IfOk result (λ pulled. Pulls pulled j self.old self.new) }
        ensures fails { IfErr result (λ bad. Fails self.old self.new bad) }
    {
        pull_at(&mut self.ins, j)
    }

    /// Notes a frame that was pulled off link `j` in, and gathers what it brings.
    fn take_up(&mut self, j: u32, frame: &Frame) -> Result<(), NodeFault>
        requires { HoldsNoted self.old j frame.now }
        ensures takes { OnOk result (TakesUp self.old self.new j frame.now) }
        ensures refuses { IfErr result (λ bad. Refuses self.old self.new j frame.now bad) }
    {
        let parsers = self.ins.len() as u32;
        let link = ItemLink {
            parsers,
            parser: j,
            groupers: self.groupers,
            grouper: self.me,
        };
        if !admit_at(&mut self.orders, self.job, link, frame) {
            return Err(refuse_order(&self.ins, j));
        }
        match self.state.take(frame) {
            Ok(()) => {}
            Err(_) => return Err(NodeFault::OutOfMemory),
        }
        Ok(())
    }

    /// Grants the frame that was pulled off link `j` in.
    fn grant(&mut self, j: u32)
        requires { (j < length self.old.ins) × ((d : RxSeen) → 0 < (slice_index_or self.old.ins j d).ungranted) }
        ensures grants { Grants self.old self.new j }
    {
        grant_at(&mut self.ins, j);
    }

    /// How many frames were taken off link `link` in, up to the end of the type.
    pub(crate) fn taken(&self, link: u32) -> u64
        requires { link < length self.now.ins }
        ensures { result ≡ capped (length (given_on self.now.ins link)) }
    {
        self.ins.get(link as u64).taken()
    }

    /// The row of a link out.
    pub(crate) fn row(&self, link: u32, from: u32, to: u32, taken: u64) -> LinkRow
        requires { link < length self.now.outs.links }
        ensures { (d : TxSeen) → result ≡ row_of (slice_index_or self.now.outs.links link d) from to taken }
    {
        self.outs.row(link, from, to, taken)
    }
}

impl<'a> Work<'a, RingTx, RingRx> {
    /// Lends link `j` in to the node that sends over it.
    pub(crate) fn look_in<S: LendsOut>(&mut self, j: u32, sender: &mut S, link: u32)
        requires there { (j < length self.old.ins) × (link < length (S.outs sender.old).links) }
        requires one { (d : TxSeen) (e : RxSeen) → AreOneLink (slice_index_or (S.outs sender.old).links link d) (slice_index_or self.old.ins j e) }
        ensures looks { LooksIn self.old self.new j }
        ensures lends { S.Lends sender.old sender.new }
        ensures shown { (e : RxSeen) → ShowsOut (S.outs sender.old) (S.outs sender.new) link (slice_index_or self.old.ins j e) (slice_index_or self.new.ins j e) }
    {
        lend_in(&mut self.ins, j, sender, link);
    }

    /// Lends a link out to the node that receives from it.
    pub(crate) fn beside(&mut self, link: u32, rx: &mut LinkRx<RingRx, RingTx>)
        requires there { link < length self.old.outs.links }
        requires one { (d : TxSeen) → AreOneLink (slice_index_or self.old.outs.links link d) rx.old }
        ensures looks { LooksOut self.old self.new link }
        ensures shown { ShowsOut self.old.outs self.new.outs link rx.old rx.new }
    {
        self.outs.beside(link, rx);
    }
}

// The one or the other.
fn either(a: bool, b: bool) -> bool
    ensures { result ≡ a || b }
{
    a || b
}
