//! What stands around a node: links of two credits over rings, the feeders of those in and the receivers of those out.
ghost use Rattle.std.specs.Prelude.{◌≡◌, All, IfOk, OnOk};
ghost use Rattle.credit_link.specs.Frames.{is_finish};
ghost use Rattle.net_law.specs.Starts.{IsNewTx, IsNewRx};

use credit_link::{LinkRx, LinkRxList, LinkTx, LinkTxList, RingRx, RingTx, ring_link};
use node_frames::Frame;
use std::alloc::Global;
use std::test::Fail;

/// A node's ends of its links in.
pub(crate) type Ins = LinkRxList<RingRx, RingTx>;

/// A node's ends of its links out.
pub(crate) type Outs = LinkTxList<RingTx, RingRx>;

/// The sending end of a link in, and the frames that go over it.
#[derive(Drop)]
struct Feeder {
    tx: LinkTx<RingTx, RingRx>,
    script: Vec<Frame>,
    /// How many of them were offered.
    offered: usize,
    /// Whether the end was offered.
    ended: bool,
    ghost ends: { ended ≡ tx.finished },
}

// Whether a frame is the end.
fn is_end(frame: &Frame) -> bool
    ensures { result ≡ is_finish frame.now }
{
    match frame {
        Frame::Finish => true,
        _ => false,
    }
}

impl Feeder {
    /// Offers the next frame, if that may be now: whether it was.
    fn offer(&mut self) -> bool {
        if self.ended || !self.tx.ready() || self.offered >= self.script.len() {
            return false;
        }
        let frame = &self.script[self.offered];
        self.tx.offer(frame);
        self.ended = is_end(frame);
        self.offered += 1;
        true
    }

    fn pump(&mut self, cut: u32) {
        let _ = self.tx.pump(cut);
    }

    /// Offers the next frames, at most so many.
    fn feed(&mut self, many: usize, cut: u32) {
        self.pump(cut);
        for _ in 0..many {
            if !self.offer() {
                return;
            }
            self.pump(cut);
        }
    }
}

/// The receiving end of a link out, and the frames that came on it.
#[derive(Drop)]
pub(crate) struct Receiver {
    rx: LinkRx<RingRx, RingTx>,
    pub(crate) came: Vec<Frame>,
}

impl Receiver {
    // The next frame that has come, which is granted.
    fn next(&mut self, cut: u32) -> Result<Option<Frame>, Fail> {
        let Ok(_) = self.rx.pump(cut) else {
            return Err(Fail::from("a fault of a link out"));
        };
        let Ok(pulled) = self.rx.pull() else {
            return Err(Fail::from("a fault of a link out"));
        };
        if let Some(frame) = pulled {
            self.rx.grant();
            return Ok(Some(frame));
        }
        Ok(None)
    }

    // Takes what has come.
    fn take(&mut self, cut: u32) -> Result<(), Fail> {
        for _ in 0..64 {
            let Some(frame) = self.next(cut)? else {
                return Ok(());
            };
            self.came.push(frame)?;
        }
        Ok(())
    }
}

/// The other ends of a node's links.
#[derive(Drop)]
pub(crate) struct Neighbours {
    feeders: Vec<Feeder>,
    pub(crate) receivers: Vec<Receiver>,
}

impl Neighbours {
    pub(crate) fn new(alloc: Global) -> Neighbours {
        Neighbours {
            feeders: Vec::new(alloc),
            receivers: Vec::new(alloc),
        }
    }

    /// New links in, over each of which the frames of a script go.
    pub(crate) fn links_in(&mut self, alloc: Global, scripts: Vec<Vec<Frame>>) -> Result<Ins, Fail>
        ensures new { IfOk result (λ ins. All (IsNewRx 2) ins.items) }
    {
        let mut ins = Ins::new(alloc);
        'links: for script in scripts {
            let feeder = add_in(alloc, &mut ins, script)?;
            self.feeders.push(feeder)?;
        }
        Ok(ins)
    }

    /// So many new links out.
    pub(crate) fn links_out(&mut self, alloc: Global, count: u32) -> Result<Outs, Fail>
        ensures new { IfOk result (λ outs. All (IsNewTx 2) outs.items) }
    {
        let mut outs = Outs::new(alloc);
        'links: for _ in 0..count {
            let receiver = add_out(alloc, &mut outs)?;
            self.receivers.push(receiver)?;
        }
        Ok(outs)
    }

    /// Feeds a link in that is drawn with frames as many as are drawn, at most 7.
    pub(crate) fn feed(&mut self, drawn: u64, cut: u32) {
        let links = self.feeders.len();
        if links > 0 {
            let many = (drawn >> 40) as usize % 8;
            self.feeders[(drawn >> 33) as usize % links].feed(many, cut);
        }
    }

    /// Takes what has come on each link out.
    pub(crate) fn take(&mut self, cut: u32) -> Result<(), Fail> {
        for receiver in self.receivers.iter_mut() {
            receiver.take(cut)?;
        }
        Ok(())
    }

    /// How many of these frames are still to come on the links out. None: others came.
    pub(crate) fn missing(&self, wanted: &[Vec<Frame>]) -> Option<usize> {
        if self.receivers.len() != wanted.len() {
            return None;
        }
        let mut missing = 0usize;
        for (k, receiver) in self.receivers.iter().enumerate() {
            let came = receiver.came.as_slice();
            if k >= wanted.len() || !wanted[k].as_slice().starts_with(came) {
                return None;
            }
            missing = missing.wrapping_add(wanted[k].len().wrapping_sub(came.len()));
        }
        Some(missing)
    }
}

// One new link in more, and the feeder that follows this script.
fn add_in(alloc: Global, ins: &mut Ins, script: Vec<Frame>) -> Result<Feeder, Fail>
    requires { All (IsNewRx 2) ins.old.items }
    ensures { OnOk result (All (IsNewRx 2) ins.new.items) }
{
    let (tx, rx) = ring_link(alloc, 2)?;
    let Ok(()) = ins.push(rx) else {
        return Err(Fail::from("no memory"));
    };
    Ok(Feeder {
        tx,
        script,
        offered: 0,
        ended: false,
    })
}

// One new link out more, and its receiver.
fn add_out(alloc: Global, outs: &mut Outs) -> Result<Receiver, Fail>
    requires { All (IsNewTx 2) outs.old.items }
    ensures { OnOk result (All (IsNewTx 2) outs.new.items) }
{
    let (tx, rx) = ring_link(alloc, 2)?;
    let Ok(()) = outs.push(tx) else {
        return Err(Fail::from("no memory"));
    };
    let came = Vec::new(alloc);
    Ok(Receiver { rx, came })
}
