//! What the sender of a link keeps: the bytes that have not gone out, the frames held, and the digest.
ghost use Rattle.std.specs.Prelude.{◌≡◌, ◌<◌, ◌≤◌, ◌+◌, ◌-◌, max, ℕ, List, ◌↔◌, true, false, IsTrue, IfOk, [], ◌∷◌, ◌++◌, ◌⊎◌, ◌≢◌, length, take, drop, replicate, slice_index, OnOk, IfErr, Some, None};
ghost use Rattle.sha2.specs.Hashers.{Holds256};
ghost use Rattle.node_frames.specs.Link.{framed, wire_of};
ghost use Rattle.node_frames.specs.Table.{CanStand};
ghost use Rattle.credit_link.specs.Frames.{capped, IsCounted, wire_behind, is_finish};
ghost use Rattle.credit_link.specs.Sending.{new_sender, SenderSeen, SenderStands, CreditsTaken, NoCredit};

use crate::LinkBad;
use crate::slices::behind;
use ds_base::OutOfMemory;
use ghost_list::GhostList;
use node_frames::{Bytes8, Digest as LinkDigest, Frame, Seal, Wire, encode};
use sha2::{Digest, Sha256};
use std::alloc::Global;
use std::marker::Model;

/// A link's sender without its pipes. Contracts see the frames offered, and what is left of their bytes.
#[derive(Drop)]
pub(crate) struct Sender {
    /// How many frames may be held.
    credits: u32,
    /// How many frames were sent for which no credit came back.
    held: u32,
    /// The greatest number held so far.
    most_held: u32,
    /// How many frames were offered, and how many credits came back, up to the end of the type.
    sent: u64,
    repaid: u64,
    /// The bytes of the frame that was offered last, of which the first `gone` went into the data pipe.
    out: Bytes8,
    gone: usize,
    /// Of all bytes so far, until the link's end was offered.
    digest: Sha256,
    finished: bool,
    fault: Option<LinkBad>,
    offered: GhostList<Frame>,
}

impl Model for Sender {
    ghost use Rattle.std.specs.Prelude.{drop};
    ghost use Rattle.credit_link.specs.Sending.{SenderSeen};

    ghost Value = { SenderSeen };

    ghost view = { λ s. record { credits = s.credits; offered = s.offered.items; left = drop s.gone s.out.bytes; held = s.held; repaid = s.repaid; most_held = s.most_held; finished = s.finished; fault = s.fault } };

    ghost use Rattle.credit_link.specs.Sending.{SenderStands, Buffers};

    ghost invariant = { λ s. SenderStands (record { credits = s.credits; offered = s.offered.items; left = drop s.gone s.out.bytes; held = s.held; repaid = s.repaid; most_held = s.most_held; finished = s.finished; fault = s.fault }) × Buffers s.offered.items s.out s.gone s.sent s.digest s.finished };
}

impl Sender {
    /// A sender that was offered nothing. It takes all memory that it ever needs.
    pub(crate) fn new(alloc: Global, credits: u32) -> Result<Self, OutOfMemory>
        requires { 0 < credits }
        ensures { IfOk result (λ s. (s ≡ new_sender credits) × SenderStands s) }
    {
        let out = match Bytes8::with_room(alloc, 1028) {
            Ok(out) => out,
            Err(_) => return Err(OutOfMemory),
        };
        Ok(Sender {
            credits,
            held: 0,
            most_held: 0,
            sent: 0,
            repaid: 0,
            out,
            gone: 0,
            digest: Sha256::new(),
            finished: false,
            fault: None,
            offered: GhostList::new(),
        })
    }

    /// Whether a frame may be offered: fewer are held than there are credits, and no bytes are left.
    pub(crate) fn ready(&self) -> bool
        ensures ready { IsTrue result ↔ ((self.now.held < self.now.credits) × (self.now.left ≡ [])) }
        ensures stands { SenderStands self.now }
    {
        self.held < self.credits && self.gone == self.out.len()
    }

    /// The fault that is kept, if one is.
    pub(crate) fn fault(&self) -> Option<LinkBad>
        ensures fault { result ≡ self.now.fault }
        ensures stands { SenderStands self.now }
    {
        self.fault
    }

    /// How many frames were offered, up to the end of the type.
    pub(crate) fn sent(&self) -> u64
        ensures { result ≡ capped (length self.now.offered) }
    {
        self.sent
    }

    /// The greatest number of frames held at once so far.
    pub(crate) fn most_held(&self) -> u32
        ensures { result ≡ self.now.most_held }
    {
        self.most_held
    }

    /// How many frames may be held at once.
    pub(crate) fn credits(&self) -> u32
        ensures { result ≡ self.now.credits }
    {
        self.credits
    }

    /// How many frames are held.
    pub(crate) fn held(&self) -> u32
        ensures held { result ≡ self.now.held }
        ensures stands { SenderStands self.now }
    {
        self.held
    }

    /// The bytes that have not gone into the data pipe.
    pub(crate) fn left(&self) -> &[u8]
        ensures left { result.now ≡ self.now.left }
        ensures short { length result.now ≤ 1028 }
        ensures stands { SenderStands self.now }
    {
        let bytes = self.out.as_slice();
        behind(bytes, self.gone)
    }

    /// The first `count` of the bytes left have gone.
    pub(crate) fn went(&mut self, count: usize)
        requires { count ≤ length self.old.left }
        ensures left { self.new ≡ record self.old { left = drop count self.old.left } }
        ensures stands { SenderStands self.new }
    {
        self.gone += count;
    }

    /// So many credits came back.
    pub(crate) fn came_back(&mut self, count: u32)
        requires { count ≤ self.old.held }
        ensures left { self.new ≡ record self.old { held = self.old.held - count; repaid = capped (self.old.repaid + count) } }
        ensures stands { SenderStands self.new }
    {
        self.held -= count;
        self.repaid = self.repaid.saturating_add(count as u64);
    }

    /// Takes what came over the credit pipe: a byte 1 for each credit, while frames are held.
    pub(crate) fn take_credits(&mut self, coins: &[u8]) -> Result<(), LinkBad>
        ensures taken { OnOk result (CreditsTaken self.old self.new coins.now) }
        ensures refused { IfErr result (λ bad. NoCredit self.old self.new coins.now bad) }
        ensures stands { SenderStands self.new }
    {
        let count = credits_in(coins, self.held as usize);
        let at = self.repaid.saturating_add(count as u64);
        self.came_back(count as u32);
        if count == coins.len() {
            return Ok(());
        }
        let bad = LinkBad::Credit {
            at,
            got: coins[count],
        };
        self.keep(bad);
        Err(bad)
    }

    /// Keeps a fault, to be answered from now on.
    pub(crate) fn keep(&mut self, bad: LinkBad)
        ensures fault { self.new ≡ record self.old { fault = Some bad } }
        ensures stands { SenderStands self.new }
    {
        self.fault = Some(bad);
    }

    /// Takes up a frame, whose bytes are then left.
    pub(crate) fn offer(&mut self, frame: &Frame)
        requires ready { (self.old.held < self.old.credits) × (self.old.left ≡ []) }
        requires unfinished { self.old.finished ≡ false }
        ensures offered { self.new.offered ≡ self.old.offered ++ frame.now ∷ [] }
        ensures held { self.new.held ≡ self.old.held + 1 }
        ensures most { self.new.most_held ≡ max self.old.most_held self.new.held }
        ensures some { 0 < length self.new.left }
        ensures left { IsCounted self.new.offered → self.new.left ≡ framed (wire_behind self.old.offered frame.now) }
        ensures finished { self.new.finished ≡ is_finish frame.now }
        ensures rest { (self.new.credits ≡ self.old.credits) × (self.new.repaid ≡ self.old.repaid) × (self.new.fault ≡ self.old.fault) }
        ensures stands { SenderStands self.new }
    {
        let wire = wire_for(frame, self.sent, &mut self.digest);
        self.out.clear();
        self.gone = 0;
        encode(&wire, &mut self.out);
        self.finished = ends(frame);
        self.digest.update(self.out.as_slice());
        self.held += 1;
        self.most_held = self.most_held.max(self.held);
        self.sent = self.sent.saturating_add(1);
        self.offered = self.offered.and(frame);
    }
}

// How many credits stand at the front, of which there may be `held`.
fn credits_in(coins: &[u8], held: usize) -> usize
    ensures within { (result ≤ length coins.now) × (result ≤ held) }
    ensures ones { take result coins.now ≡ replicate result 1 }
    ensures wrong { result < length coins.now → (slice_index coins.now result ≢ 1) ⊎ (result ≡ held) }
{
    let mut count = 0;
    for coin in coins {
        if count == held || *coin != 1 {
            return count;
        }
        count += 1;
    }
    count
}

// How a frame stands on the link: the end as the seal of the frames and bytes before it, any other frame as
// it is.
fn wire_for(frame: &Frame, sent: u64, digest: &mut Sha256) -> Wire
    ensures wire { (bytes : List ℕ) → Holds256 digest.old bytes → result ≡ wire_of sent bytes frame.now }
    ensures digest { is_finish frame.now ≡ false → digest.new ≡ digest.old }
    ensures stands { CanStand result }
{
    match frame {
        Frame::Finish => Wire::Sealed(Seal {
            frames: sent,
            digest: LinkDigest {
                bytes: digest.finalize_reset(),
            },
        }),
        other => Wire::Plain(*other),
    }
}

// Whether a frame is the end of the link.
pub(crate) fn ends(frame: &Frame) -> bool
    ensures { result ≡ is_finish frame.now }
{
    matches!(frame, Frame::Finish)
}
