//! The sending end of a link.
ghost use Rattle.std.specs.Prelude.{◌≡◌, ◌<◌, ◌≤◌, ◌+◌, ◌↔◌, max, true, false, IsTrue, IfOk, IfErr, MatchResult, [], ◌∷◌, ◌++◌, length, take, Some, None, Ok, Err};
ghost use Rattle.ds_base.specs.Pipes.{PipeFails, PipeSteps};
ghost use Rattle.credit_link.specs.declared.link_bad.LinkBad.{LinkBad};
ghost use Rattle.credit_link.specs.declared.link_bad.LinkBad.TheVariants.{Failed as LinkFailed};
ghost use Rattle.credit_link.specs.Frames.{capped, is_finish};
ghost use Rattle.credit_link.specs.Sending.{new_sender};
ghost use Rattle.credit_link.specs.Ends.{tx_of, IsNew, IsReady, TxStands};
ghost use Rattle.credit_link.specs.Pumping.{PutsOut, TakesBack, FailsBack, TxPumps, TxFails, TxKeeps};

use crate::sender::Sender;
use crate::slices::front;
use crate::{LinkBad, LinkRow};
use byte_rings::{NamedRx, NamedTx};
use ds_base::{Failed, PipeRx, PipeTx};
use node_frames::Frame;
use std::alloc::Global;
use std::marker::Model;

/// The two pipe ends of an end of a link that could not be made for want of memory.
#[derive(Drop)]
pub struct NoLink<A, B> {
    pub forth: A,
    pub back: B,
}

/// The sending end of a link: frames go into its data pipe, and credits come over its credit pipe.
#[derive(Drop)]
pub struct LinkTx<T: NamedTx, R: NamedRx> {
    pub(crate) forth: T,
    pub(crate) back: R,
    sender: Sender,
}

impl<T: NamedTx, R: NamedRx> Model for LinkTx<T, R> {
    ghost use Rattle.credit_link.specs.Ends.{TxSeen};

    ghost Value = { TxSeen };

    ghost use Rattle.credit_link.specs.Ends.{tx_of, OnPipes};

    ghost view = { λ l. tx_of l.sender (T.seen l.forth) (R.seen l.back) (T.name l.forth) (R.name l.back) };

    ghost invariant = { λ l. OnPipes l.sender (T.seen l.forth) (R.seen l.back) };
}

impl<T: NamedTx, R: NamedRx> LinkTx<T, R> {
    /// A link's sending end over a data pipe and a credit pipe. It is refused for want of memory alone, and
    /// takes all memory that it ever needs.
    pub fn new(alloc: Global, forth: T, back: R, credits: u32) -> Result<Self, NoLink<T, R>>
        requires credits { (1 ≤ credits) × (credits ≤ 1024) }
        requires forth { IsNew (T.seen forth) }
        requires back { IsNew (R.seen back) }
        ensures fresh { IfOk result (λ l. l ≡ tx_of (new_sender credits) (T.seen forth) (R.seen back) (T.name forth) (R.name back)) }
        ensures stands { IfOk result (λ l. TxStands l) }
        ensures refused { IfErr result (λ no. (no.forth ≡ forth) × (no.back ≡ back)) }
    {
        match Sender::new(alloc, credits) {
            Ok(sender) => Ok(LinkTx {
                forth,
                back,
                sender,
            }),
            Err(_) => Err(NoLink { forth, back }),
        }
    }

    /// Whether a frame may be offered: false exactly where the number held equals the credits, or a byte of
    /// an earlier frame has not gone into the pipe.
    pub fn ready(&self) -> bool
        ensures ready { IsTrue result ↔ IsReady self.now }
        ensures stands { TxStands self.now }
    {
        self.sender.ready()
    }

    /// Sends a frame, once the end is ready and its `Finish` was not offered. For `Finish` it sends the seal
    /// of all that went before.
    pub fn offer(&mut self, frame: &Frame)
        requires ready { IsReady self.old }
        requires unfinished { self.old.finished ≡ false }
        ensures offered { self.new.offered ≡ self.old.offered ++ frame.now ∷ [] }
        ensures held { self.new.held ≡ self.old.held + 1 }
        ensures most { self.new.most_held ≡ max self.old.most_held self.new.held }
        ensures finished { self.new.finished ≡ is_finish frame.now }
        ensures left { 0 < length self.new.left }
        ensures rest { self.new ≡ record self.old { offered = self.new.offered; left = self.new.left; held = self.new.held; most_held = self.new.most_held; finished = self.new.finished } }
        ensures stands { TxStands self.new }
    {
        self.sender.offer(frame);
    }

    /// Moves at most `cut` bytes of what is left into the data pipe, and at most `cut` credits out of the
    /// credit pipe, and answers how many bytes moved. The first fault is answered again by each later call.
    pub fn pump(&mut self, cut: u32) -> Result<u32, LinkBad>
        ensures again { (bad : LinkBad) → self.old.fault ≡ Some bad → (result ≡ Err bad) × (self.new ≡ self.old) }
        ensures moved { IfOk result (λ n. TxPumps self.old self.new cut n) }
        ensures failed { self.old.fault ≡ None → IfErr result (λ bad. TxFails self.old self.new cut bad) }
        ensures kept { TxKeeps self.old self.new }
        ensures fault { MatchResult result (λ _. self.new.fault ≡ None) (λ bad. self.new.fault ≡ Some bad) }
        ensures stands { TxStands self.new }
    {
        if let Some(bad) = self.sender.fault() {
            return Err(bad);
        }
        let out = self.put_out(cut)?;
        let back = self.take_back(cut)?;
        Ok(out + back)
    }

    /// Moves bytes that are left into the data pipe.
    fn put_out(&mut self, cut: u32) -> Result<u32, LinkBad>
        ensures moved { IfOk result (λ n. PutsOut self.old self.new cut n) }
        ensures short { IfOk result (λ n. n ≤ 1028) }
        ensures failed { IfErr result (λ bad. (bad ≡ LinkFailed) × (self.new ≡ record self.old { fault = Some bad; forth = self.new.forth }) × PipeFails self.old.forth self.new.forth) }
        ensures stands { TxStands self.new }
    {
        let piece = front(self.sender.left(), cut as usize);
        if piece.is_empty() {
            return Ok(0);
        }
        match self.forth.send(piece) {
            Ok(count) => {
                self.sender.went(count);
                Ok(count as u32)
            }
            Err(_) => {
                self.sender.keep(LinkBad::Failed);
                Err(LinkBad::Failed)
            }
        }
    }

    /// Takes credits that came back.
    fn take_back(&mut self, cut: u32) -> Result<u32, LinkBad>
        ensures moved { IfOk result (λ n. TakesBack self.old self.new cut n) }
        ensures short { IfOk result (λ n. n ≤ 64) }
        ensures failed { IfErr result (λ bad. FailsBack self.old self.new bad) }
        ensures stands { TxStands self.new }
    {
        let most = most_credits(cut, self.sender.held());
        if most == 0 {
            return Ok(0);
        }
        let mut coins = [0u8; 64];
        match receive_front(&mut self.back, &mut coins, most) {
            Ok(count) => {
                if let Err(bad) = self.sender.take_credits(front(&coins, count)) {
                    return Err(bad);
                }
                Ok(count as u32)
            }
            Err(_) => {
                self.sender.keep(LinkBad::Failed);
                Err(LinkBad::Failed)
            }
        }
    }

    /// How many frames may be held at once.
    pub fn credits(&self) -> u32
        ensures credits { result ≡ self.now.credits }
        ensures stands { TxStands self.now }
    {
        let _ = self.sender.held();
        self.sender.credits()
    }

    /// How many frames were sent for which no credit came back.
    pub fn held(&self) -> u32
        ensures held { result ≡ self.now.held }
        ensures stands { TxStands self.now }
    {
        self.sender.held()
    }

    /// The link's row of a report, by its two nodes and the frames that were taken off it.
    pub fn row(&self, from: u32, to: u32, taken: u64) -> LinkRow
        ensures row { result ≡ record { from = from; to = to; sent = capped (length self.now.offered); taken = taken; most_held = self.now.most_held } }
    {
        LinkRow {
            from,
            to,
            sent: self.sender.sent(),
            taken,
            most_held: self.sender.most_held() as u64,
        }
    }

    /// The two pipe ends, as the link leaves them.
    pub fn into_pipes(self) -> (T, R)
        ensures forth { (T.seen result.0 ≡ self.forth) × (T.name result.0 ≡ self.forth_name) }
        ensures back { (R.seen result.1 ≡ self.back) × (R.name result.1 ≡ self.back_name) }
    {
        let LinkTx {
            forth,
            back,
            sender: _,
        } = self;
        (forth, back)
    }
}

// How many bytes of a credit pipe are read at once: none while no frame is held.
fn most_credits(cut: u32, held: u32) -> usize
    ensures most { (result ≤ 64) × (result ≤ cut) × (result ≤ held + 1) }
    ensures some { 0 < cut → 0 < held → 0 < result }
    ensures none { held ≡ 0 → result ≡ 0 }
{
    if held == 0 {
        return 0;
    }
    cut.min(held.min(63) + 1) as usize
}

// Reads at most `most` bytes of a credit pipe.
fn receive_front<R: NamedRx>(
    back: &mut R,
    coins: &mut [u8; 64],
    most: usize,
) -> Result<usize, Failed>
    requires { most ≤ 64 }
    ensures steps { PipeSteps (R.seen back.old) (R.seen back.new) (take most coins.new) result }
    ensures name { R.name back.new ≡ R.name back.old }
{
    back.receive(&mut coins[..most])
}
