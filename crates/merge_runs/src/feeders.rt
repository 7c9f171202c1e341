//! Links of two credits over rings to a merge, and what feeds them.
ghost use Rattle.std.specs.Prelude.{◌≡◌, All, IfOk, OnOk};
ghost use Rattle.credit_link.specs.Frames.{is_finish};
ghost use Rattle.net_law.specs.Starts.{IsNewRx};

use credit_link::{LinkRxList, LinkTx, RingRx, RingTx, ring_link};
use node_frames::Frame;
use std::alloc::Global;
use std::test::Fail;

/// The merge's ends of its links.
pub(crate) type Ins = LinkRxList<RingRx, RingTx>;

/// The sending end of a link, and the frames that go over it.
#[derive(Drop)]
pub(crate) struct Feeder {
    tx: LinkTx<RingTx, RingRx>,
    pub(crate) script: Vec<Frame>,
    /// How many of them were offered.
    offered: usize,
    /// Whether the end was offered.
    ended: bool,
    ghost ends: { ended ≡ tx.finished },
}

// Whether a frame is the end.
fn is_end(frame: &Frame) -> bool
    ensures { result ≡ is_finish frame.now }
{
    match frame {
        Frame::Finish => true,
        _ => false,
    }
}

impl Feeder {
    /// Offers the next frame, if that may be now: whether it was.
    fn offer(&mut self) -> bool {
        if self.ended || !self.tx.ready() || self.offered >= self.script.len() {
            return false;
        }
        let frame = &self.script[self.offered];
        self.tx.offer(frame);
        self.ended = is_end(frame);
        self.offered += 1;
        true
    }

    fn pump(&mut self, cut: u32) {
        let _ = self.tx.pump(cut);
    }

    /// Offers the next frames, at most so many.
    fn feed(&mut self, many: usize, cut: u32) {
        self.pump(cut);
        for _ in 0..many {
            if !self.offer() {
                return;
            }
            self.pump(cut);
        }
    }
}

/// What feeds the links of a merge, of which the first so many come from parsers.
#[derive(Drop)]
pub(crate) struct Feeders {
    pub(crate) parsers: u32,
    pub(crate) links: Vec<Feeder>,
}

impl Feeders {
    pub(crate) fn new(alloc: Global, parsers: u32) -> Feeders {
        Feeders {
            parsers,
            links: Vec::new(alloc),
        }
    }

    /// New links, over each of which the frames of a script go.
    pub(crate) fn links_in(&mut self, alloc: Global, scripts: Vec<Vec<Frame>>) -> Result<Ins, Fail>
        ensures new { IfOk result (λ ins. All (IsNewRx 2) ins.items) }
    {
        let mut ins = Ins::new(alloc);
        'links: for script in scripts {
            let feeder = add_in(alloc, &mut ins, script)?;
            self.links.push(feeder)?;
        }
        Ok(ins)
    }

    /// Feeds a link that is drawn with frames as many as are drawn, at most 7.
    pub(crate) fn feed(&mut self, drawn: u64, cut: u32) {
        let links = self.links.len();
        if links > 0 {
            let many = (drawn >> 40) as usize % 8;
            self.links[(drawn >> 33) as usize % links].feed(many, cut);
        }
    }
}

// One new link more, and the feeder that follows this script.
fn add_in(alloc: Global, ins: &mut Ins, script: Vec<Frame>) -> Result<Feeder, Fail>
    requires { All (IsNewRx 2) ins.old.items }
    ensures { OnOk result (All (IsNewRx 2) ins.new.items) }
{
    let (tx, rx) = ring_link(alloc, 2)?;
    let Ok(()) = ins.push(rx) else {
        return Err(Fail::from("no memory"));
    };
    Ok(Feeder {
        tx,
        script,
        offered: 0,
        ended: false,
    })
}
