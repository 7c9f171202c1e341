//! What the receiver of a link keeps: the bytes received, the frames given, the credits owed, the digest.
ghost use Rattle.std.specs.Prelude.{◌≡◌, ◌<◌, ◌≤◌, ◌+◌, ◌-◌, ◌^◌, ◌==◌, ◌||◌, ℕ, List, ◌≢◌, true, false, IsTrue, IsFalse, IfOk, IfErr, MatchResult, [], ◌∷◌, ◌++◌, length, take, drop, replicate, Some, None, Err};
ghost use Rattle.ds_base.specs.Pipes.{PipeSteps};
ghost use Rattle.node_frames.specs.Table.{Spells};
ghost use Rattle.node_frames.specs.declared.wire.Wire.TheVariants.{Plain, Sealed};
ghost use Rattle.credit_link.specs.Frames.{capped, IsCounted, bytes_of_all, wire_behind, is_finish};
ghost use Rattle.credit_link.specs.Moves.{IsHeard};
ghost use Rattle.credit_link.specs.Ahead.{HasWhole, payload_ahead};
ghost use Rattle.credit_link.specs.Receiving.{new_receiver, ReceiverStands, GivesFrame, Fills, Pays, Fails};
ghost use Rattle.credit_link.specs.Pulling.{PullAnswers, IsFrameBad};

use crate::LinkBad;
use crate::ahead::{Ahead, look_ahead, payload};
use crate::slices::{are_bytes, between, front};
use byte_rings::{NamedRx, NamedTx};
use ds_base::{Failed, OutOfMemory, PipeRx, PipeTx};
use ghost_list::GhostList;
use node_frames::{Digest as LinkDigest, Frame, Seal, Wire, decode};
use sha2::{Digest, Sha256};
use std::alloc::Global;
use std::marker::Model;

/// A link's receiver without its pipes. Contracts see the frames given, and the bytes received behind them.
#[derive(Drop)]
pub(crate) struct Receiver {
    /// How many credits are written at once at most.
    credits: u32,
    /// The receive buffer, of 2,056 bytes: those from `start` to `end` were received and not yet read.
    bytes: Vec<u8>,
    start: usize,
    end: usize,
    /// How many frames were given, up to the end of the type, and whether there were more than that.
    taken: u64,
    over: bool,
    /// The offset of the next frame, and of the one that was given last, up to the end of the type.
    at: u64,
    last: u64,
    /// How many credits were granted and have not gone out, have gone out, and were not granted yet.
    owed: u64,
    paid: u64,
    ungranted: u64,
    /// Of the bytes of all frames given, until the link's end was.
    digest: Sha256,
    finished: bool,
    fault: Option<LinkBad>,
    given: GhostList<Frame>,
}

impl Model for Receiver {
    ghost use Rattle.std.specs.Prelude.{take, drop};
    ghost use Rattle.credit_link.specs.Receiving.{ReceiverSeen};

    ghost Value = { ReceiverSeen };

    ghost view = { λ r. record { credits = r.credits; given = r.given.items; box = drop r.start (take r.end r.bytes.items); owed = r.owed; paid = r.paid; ungranted = r.ungranted; last = r.last; finished = r.finished; fault = r.fault } };

    ghost use Rattle.credit_link.specs.Receiving.{ReceiverStands, Counters};

    ghost invariant = { λ r. ReceiverStands (record { credits = r.credits; given = r.given.items; box = drop r.start (take r.end r.bytes.items); owed = r.owed; paid = r.paid; ungranted = r.ungranted; last = r.last; finished = r.finished; fault = r.fault }) × Counters r.given.items r.bytes.items r.start r.end r.taken r.at r.over r.digest r.finished r.fault };
}

impl Receiver {
    /// A receiver that was given nothing. It takes all memory that it ever needs.
    pub(crate) fn new(alloc: Global, credits: u32) -> Result<Self, OutOfMemory>
        requires { 0 < credits }
        ensures { IfOk result (λ s. (s ≡ new_receiver credits) × ReceiverStands s) }
    {
        let Ok(bytes) = vec![in alloc; 0u8; 2056] else {
            return Err(OutOfMemory);
        };
        Ok(Receiver {
            credits,
            bytes,
            start: 0,
            end: 0,
            taken: 0,
            over: false,
            at: 0,
            last: 0,
            owed: 0,
            paid: 0,
            ungranted: 0,
            digest: Sha256::new(),
            finished: false,
            fault: None,
            given: GhostList::new(),
        })
    }

    /// The fault that is kept, if one is.
    pub(crate) fn fault(&self) -> Option<LinkBad>
        ensures fault { result ≡ self.now.fault }
        ensures stands { ReceiverStands self.now }
    {
        self.fault
    }

    /// How many credits were granted that have not gone out.
    pub(crate) fn owed(&self) -> u64
        ensures owed { result ≡ self.now.owed }
        ensures stands { ReceiverStands self.now }
    {
        self.owed
    }

    /// Whether the link's end was given.
    pub(crate) fn finished(&self) -> bool
        ensures finished { result ≡ self.now.finished }
        ensures stands { ReceiverStands self.now }
    {
        self.finished
    }

    /// How many frames were given, up to the end of the type.
    pub(crate) fn taken(&self) -> u64
        ensures { result ≡ capped (length self.now.given) }
    {
        self.taken
    }

    /// The offset of the frame that was given last, up to the end of the type.
    pub(crate) fn last_at(&self) -> u64
        ensures last { result ≡ self.now.last }
        ensures stands { ReceiverStands self.now }
    {
        self.last
    }

    /// Keeps a fault, to be answered from now on.
    pub(crate) fn keep(&mut self, bad: LinkBad)
        ensures fault { self.new ≡ record self.old { fault = Some bad } }
        ensures stands { ReceiverStands self.new }
    {
        self.fault = Some(bad);
    }

    /// Grants one of the frames given.
    pub(crate) fn grant(&mut self)
        requires { 0 < self.old.ungranted }
        ensures grants { self.new ≡ record self.old { owed = capped (self.old.owed + 1); ungranted = self.old.ungranted - 1 } }
        ensures stands { ReceiverStands self.new }
    {
        self.ungranted -= 1;
        self.owed = self.owed.saturating_add(1);
    }

    /// So many credits have gone out.
    pub(crate) fn paid_out(&mut self, count: u64)
        requires { count ≤ self.old.owed }
        ensures pays { self.new ≡ record self.old { owed = self.old.owed - count; paid = capped (self.old.paid + count) } }
        ensures stands { ReceiverStands self.new }
    {
        self.owed -= count;
        self.paid = self.paid.saturating_add(count);
    }

    /// Receives at most `cut` bytes from the data pipe, as far as there is room for them.
    pub(crate) fn fill<R: NamedRx>(&mut self, forth: &mut R, cut: u32) -> Result<u32, LinkBad>
        requires { IsHeard (R.seen forth.old) }
        ensures heard { IsHeard (R.seen forth.new) }
        ensures filled { IfOk result (λ n. Fills self.old self.new (R.seen forth.old) (R.seen forth.new) cut n) }
        ensures short { IfOk result (λ n. n ≤ 2056) }
        ensures failed { IfErr result (λ bad. Fails self.old self.new (R.seen forth.old) (R.seen forth.new) bad) }
        ensures name { R.name forth.new ≡ R.name forth.old }
        ensures stands { ReceiverStands self.new }
    {
        to_front(&mut self.bytes, self.start, self.end);
        self.end -= self.start;
        self.start = 0;
        let most = (cut as usize).min(2056 - self.end);
        if most == 0 {
            return Ok(0);
        }
        match receive_at(forth, &mut self.bytes, self.end, most) {
            Ok(count) => {
                self.end += count;
                Ok(count as u32)
            }
            Err(_) => {
                self.fault = Some(LinkBad::Failed);
                Err(LinkBad::Failed)
            }
        }
    }

    /// Sends at most `cut` of the credits that are owed into the credit pipe.
    pub(crate) fn pay<T: NamedTx>(&mut self, back: &mut T, cut: u32) -> Result<u32, LinkBad>
        requires { IsHeard (T.seen back.old) }
        ensures heard { IsHeard (T.seen back.new) }
        ensures paid { IfOk result (λ n. Pays self.old self.new (T.seen back.old) (T.seen back.new) cut n) }
        ensures short { IfOk result (λ n. n ≤ 64) }
        ensures failed { IfErr result (λ bad. Fails self.old self.new (T.seen back.old) (T.seen back.new) bad) }
        ensures name { T.name back.new ≡ T.name back.old }
        ensures stands { ReceiverStands self.new }
    {
        let most = most_paid(self.owed, cut, self.credits);
        if most == 0 {
            return Ok(0);
        }
        match back.send(ones(&ONES, most)) {
            Ok(count) => {
                self.paid_out(count as u64);
                Ok(count as u32)
            }
            Err(_) => {
                self.fault = Some(LinkBad::Failed);
                Err(LinkBad::Failed)
            }
        }
    }

    /// The next frame of the bytes received, or why there is none. The frame is cut and read where it lies.
    pub(crate) fn pull(&mut self) -> Result<Option<Frame>, LinkBad>
        requires { self.old.fault ≡ None }
        ensures answers { PullAnswers self.old self.new result }
        ensures stands { ReceiverStands self.new }
    {
        match look_ahead(self.received()) {
            Ahead::Part => Ok(None),
            Ahead::Unlawful(len) => Err(self.refuse(len)),
            Ahead::Whole(len) => self.pull_whole(len),
        }
    }

    /// The length word, or the payload behind it, may not stand there.
    fn refuse(&mut self, len: u32) -> LinkBad
        requires { IsFrameBad self.old.finished self.old.box len }
        ensures answers { PullAnswers self.old self.new (Err result) }
        ensures stands { ReceiverStands self.new }
    {
        let bad = LinkBad::Frame { at: self.at, len };
        self.fault = Some(bad);
        bad
    }

    /// The frame that is there, by its payload's length.
    fn pull_whole(&mut self, len: usize) -> Result<Option<Frame>, LinkBad>
        requires fault { self.old.fault ≡ None }
        requires whole { HasWhole self.old.box len }
        ensures answers { PullAnswers self.old self.new result }
        ensures stands { ReceiverStands self.new }
    {
        match decode(payload(self.received(), len)) {
            Ok(Wire::Plain(frame)) => {
                self.take_up(&frame, len);
                Ok(Some(frame))
            }
            Ok(Wire::Sealed(seal)) => self.end(seal, len),
            Err(_) => Err(self.refuse(len as u32)),
        }
    }

    /// Takes a frame that is not the link's end out of the bytes received.
    fn take_up(&mut self, frame: &Frame, len: usize)
        requires whole { HasWhole self.old.box len }
        requires spells { Spells (Plain frame.now) (payload_ahead self.old.box len) }
        ensures gives { GivesFrame self.old self.new frame.now }
        ensures stands { ReceiverStands self.new }
    {
        let received = between(self.bytes.as_slice(), self.start, self.end);
        are_bytes(received);
        self.digest.update(front(received, 4 + len));
        self.given = self.given.and(frame);
        self.last = self.at;
        self.start += 4 + len;
        self.at = self.at.saturating_add(4 + len as u64);
        self.over = past(self.over, self.taken);
        self.taken = self.taken.saturating_add(1);
        self.ungranted = self.ungranted.saturating_add(1);
    }

    /// Compares the link's end that is there with what came before it.
    fn end(&mut self, told: Seal, len: usize) -> Result<Option<Frame>, LinkBad>
        requires fault { self.old.fault ≡ None }
        requires whole { HasWhole self.old.box len }
        requires spells { Spells (Sealed told) (payload_ahead self.old.box len) }
        ensures answers { PullAnswers self.old self.new result }
        ensures stands { ReceiverStands self.new }
    {
        if self.finished {
            return Err(self.refuse(len as u32));
        }
        are_bytes(between(self.bytes.as_slice(), self.start, self.end));
        let found = Seal {
            frames: self.taken,
            digest: LinkDigest {
                bytes: self.digest.finalize_reset(),
            },
        };
        if differs(self.over, &told, &found) {
            let bad = LinkBad::Seal {
                at: self.at,
                told,
                found,
            };
            self.fault = Some(bad);
            return Err(bad);
        }
        self.finished = true;
        self.given = self.given.and(&Frame::Finish);
        self.last = self.at;
        self.start += 4 + len;
        self.at = self.at.saturating_add(4 + len as u64);
        self.over = past(self.over, self.taken);
        self.taken = self.taken.saturating_add(1);
        self.ungranted = self.ungranted.saturating_add(1);
        Ok(Some(Frame::Finish))
    }

    /// The bytes received and not yet read.
    fn received(&self) -> &[u8]
        ensures received { result.now ≡ self.now.box }
        ensures stands { ReceiverStands self.now }
    {
        between(self.bytes.as_slice(), self.start, self.end)
    }
}

// Whether more frames than a u64 counts were given, once one more is.
fn past(over: bool, taken: u64) -> bool
    ensures { result ≡ over || (taken == 2 ^ 64 - 1) }
{
    over || taken == u64::MAX
}

// Whether the end tells of something else than was found, or more frames came than a u64 counts.
fn differs(over: bool, told: &Seal, found: &Seal) -> bool
    ensures differs { IsTrue result → over ≡ false → told.now ≢ found.now }
    ensures agrees { IsFalse result → (over ≡ false) × (told.now ≡ found.now) }
{
    over || told != found
}

/// What a credit is on a credit pipe.
const ONES: [u8; 64] = [1; 64];

// The bytes of `count` credits.
fn ones(bytes: &[u8; 64], count: usize) -> &[u8]
    requires ones { bytes.now ≡ replicate 64 1 }
    requires few { count ≤ 64 }
    ensures { result.now ≡ replicate count 1 }
{
    front(bytes, count)
}

// How many credits are written at once.
fn most_paid(owed: u64, cut: u32, credits: u32) -> usize
    ensures most { (result ≤ 64) × (result ≤ cut) × (result ≤ owed) }
    ensures some { 0 < cut → 0 < owed → 0 < credits → 0 < result }
{
    owed.min(cut.min(credits).min(64) as u64) as usize
}

// Moves the bytes from `start` to `end` to the front.
fn to_front(bytes: &mut Vec<u8>, start: usize, end: usize)
    requires { (start ≤ end) × (end ≤ length bytes.old.items) }
    ensures moved { take (end - start) bytes.new.items ≡ drop start (take end bytes.old.items) }
    ensures long { length bytes.new.items ≡ length bytes.old.items }
{
    if start > 0 {
        bytes.as_mut_slice().copy_within(start..end, 0);
    }
}

// Receives at most `most` bytes behind the first `at`.
fn receive_at<R: NamedRx>(
    forth: &mut R,
    bytes: &mut Vec<u8>,
    at: usize,
    most: usize,
) -> Result<usize, Failed>
    requires { at + most ≤ length bytes.old.items }
    ensures steps { PipeSteps (R.seen forth.old) (R.seen forth.new) (take most (drop at bytes.new.items)) result }
    ensures name { R.name forth.new ≡ R.name forth.old }
    ensures kept { take at bytes.new.items ≡ take at bytes.old.items }
    ensures long { length bytes.new.items ≡ length bytes.old.items }
{
    forth.receive(&mut bytes[at..at + most])
}
