//! The receiving end of a link.
ghost use Rattle.std.specs.Prelude.{◌≡◌, ◌<◌, ◌≤◌, ◌+◌, ◌-◌, ◌^◌, true, false, IsTrue, IfOk, IfErr, MatchResult, [], ◌∷◌, ◌++◌, length, Some, None, Ok, Err};
ghost use Rattle.credit_link.specs.declared.link_bad.LinkBad.{LinkBad};
ghost use Rattle.credit_link.specs.Frames.{capped};
ghost use Rattle.credit_link.specs.Receiving.{new_receiver};
ghost use Rattle.credit_link.specs.Ends.{rx_of, receiver_of, IsNew, RxStands};
ghost use Rattle.credit_link.specs.Pumping.{RxPumps, RxFails, RxKeeps};
ghost use Rattle.credit_link.specs.Pulling.{PullAnswers};

use crate::LinkBad;
use crate::receiver::Receiver;
use crate::sending::NoLink;
use byte_rings::{NamedRx, NamedTx};
use node_frames::Frame;
use std::alloc::Global;
use std::marker::Model;

/// The receiving end of a link: frames come over its data pipe, and credits go into its credit pipe.
#[derive(Drop)]
pub struct LinkRx<R: NamedRx, T: NamedTx> {
    pub(crate) forth: R,
    pub(crate) back: T,
    receiver: Receiver,
}

impl<R: NamedRx, T: NamedTx> Model for LinkRx<R, T> {
    ghost use Rattle.credit_link.specs.Ends.{RxSeen};

    ghost Value = { RxSeen };

    ghost use Rattle.credit_link.specs.Ends.{rx_of, InPipes};

    ghost view = { λ l. rx_of l.receiver (R.seen l.forth) (T.seen l.back) (R.name l.forth) (T.name l.back) };

    ghost invariant = { λ l. InPipes l.receiver (R.seen l.forth) (T.seen l.back) };
}

impl<R: NamedRx, T: NamedTx> LinkRx<R, T> {
    /// A link's receiving end over a data pipe and a credit pipe. It is refused for want of memory alone, and
    /// takes all memory that it ever needs.
    pub fn new(alloc: Global, forth: R, back: T, credits: u32) -> Result<Self, NoLink<R, T>>
        requires credits { (1 ≤ credits) × (credits ≤ 1024) }
        requires forth { IsNew (R.seen forth) }
        requires back { IsNew (T.seen back) }
        ensures fresh { IfOk result (λ l. l ≡ rx_of (new_receiver credits) (R.seen forth) (T.seen back) (R.name forth) (T.name back)) }
        ensures stands { IfOk result (λ l. RxStands l) }
        ensures refused { IfErr result (λ no. (no.forth ≡ forth) × (no.back ≡ back)) }
    {
        match Receiver::new(alloc, credits) {
            Ok(receiver) => Ok(LinkRx {
                forth,
                back,
                receiver,
            }),
            Err(_) => Err(NoLink { forth, back }),
        }
    }

    /// Receives at most `cut` bytes from the data pipe, as far as the receive buffer has room, and sends at
    /// most `cut` credits that are owed, and answers how many bytes moved. The first fault is answered again
    /// by each later call.
    pub fn pump(&mut self, cut: u32) -> Result<u32, LinkBad>
        ensures again { (bad : LinkBad) → self.old.fault ≡ Some bad → (result ≡ Err bad) × (self.new ≡ self.old) }
        ensures moved { IfOk result (λ n. RxPumps self.old self.new cut n) }
        ensures failed { self.old.fault ≡ None → IfErr result (λ bad. RxFails self.old self.new bad) }
        ensures kept { RxKeeps self.old self.new }
        ensures fault { MatchResult result (λ _. self.new.fault ≡ None) (λ bad. self.new.fault ≡ Some bad) }
        ensures stands { RxStands self.new }
    {
        if let Some(bad) = self.receiver.fault() {
            return Err(bad);
        }
        let came = self.receiver.fill(&mut self.forth, cut)?;
        let went = self.receiver.pay(&mut self.back, cut)?;
        Ok(came + went)
    }

    /// The next frame of the bytes received. None: they hold no further whole frame, and no fault stands
    /// next. The first fault of this end is answered again by each later call. It takes no memory: a frame is
    /// cut and read where it lies in the receive buffer.
    pub fn pull(&mut self) -> Result<Option<Frame>, LinkBad>
        ensures again { (bad : LinkBad) → self.old.fault ≡ Some bad → (result ≡ Err bad) × (self.new ≡ self.old) }
        ensures answers { PullAnswers (receiver_of self.old) (receiver_of self.new) result }
        ensures pipes { self.new ≡ rx_of (receiver_of self.new) self.old.forth self.old.back self.old.forth_name self.old.back_name }
        ensures stands { RxStands self.new }
    {
        if let Some(bad) = self.receiver.fault() {
            return Err(bad);
        }
        self.receiver.pull()
    }

    /// Owes the sender one credit, for a frame that was pulled and not yet granted.
    pub fn grant(&mut self)
        requires { 0 < self.old.ungranted }
        ensures grants { self.new ≡ record self.old { owed = capped (self.old.owed + 1); ungranted = self.old.ungranted - 1 } }
        ensures stands { RxStands self.new }
    {
        self.receiver.grant();
    }

    /// How many frames were pulled, up to the end of the type.
    pub fn taken(&self) -> u64
        ensures { result ≡ capped (length self.now.given) }
    {
        self.receiver.taken()
    }

    /// Whether its `Finish` was pulled.
    pub fn finished(&self) -> bool
        ensures finished { result ≡ self.now.finished }
        ensures stands { RxStands self.now }
    {
        self.receiver.finished()
    }

    /// How many credits were granted that have not gone into the credit pipe.
    pub fn owed(&self) -> u64
        ensures owed { result ≡ self.now.owed }
        ensures stands { RxStands self.now }
    {
        self.receiver.owed()
    }

    /// The offset of the length word of the frame that was pulled last, up to the end of the type.
    pub fn last_at(&self) -> u64
        requires { 0 < length self.now.given }
        ensures last { result ≡ self.now.last }
        ensures stands { RxStands self.now }
    {
        self.receiver.last_at()
    }

    /// The two pipe ends, as the link leaves them.
    pub fn into_pipes(self) -> (R, T)
        ensures forth { (R.seen result.0 ≡ self.forth) × (R.name result.0 ≡ self.forth_name) }
        ensures back { (T.seen result.1 ≡ self.back) × (T.name result.1 ≡ self.back_name) }
    {
        let LinkRx {
            forth,
            back,
            receiver: _,
        } = self;
        (forth, back)
    }
}
