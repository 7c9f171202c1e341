//! Runs of a grouper to its end, or to its fault.
ghost use Rattle.std.specs.Prelude.{All};
ghost use Rattle.net_law.specs.Starts.{IsNewTx, IsNewRx};

use super::scripts::{Shape, scripts, wanted};
use crate::links::{Ins, Neighbours, Outs};
use crate::summaries::{job, marks_in, others_in, summary};
use crate::turns::{Node, Told, turn_to_end};
use credit_link::{LinkBad, NodeFault, RingRx, RingTx, Turn};
use frame_order::GroupOrder;
use grouper_node::GrouperNode;
use node_frames::Frame;
use std::alloc::Global;
use std::process::Abort;
use std::test::Fail;
use summary_spec::Job;

impl<'a> Node for GrouperNode<'a, RingTx, RingRx> {
    fn step(&mut self, cut: u32) -> Told {
        self.turn(cut)
    }
}

/// A new grouper over these links.
fn grouper<'a>(
    alloc: Global,
    job: &'a Job,
    shape: Shape,
    ins: Ins,
    outs: Outs,
) -> Result<GrouperNode<'a, RingTx, RingRx>, Fail>
    requires ins { All (IsNewRx 2) ins.items }
    requires outs { All (IsNewTx 2) outs.items }
{
    let Shape { me, groupers, .. } = shape;
    let (parsers, processors) = (ins.len(), outs.len());
    if me >= groupers || groupers > 16 || parsers < 1 || parsers > 16 {
        return Err(Fail::from("no such grouper"));
    }
    if processors < 1 || processors > 16 {
        return Err(Fail::from("no such grouper"));
    }
    match GrouperNode::new(alloc, job, me, groupers, ins, outs) {
        Ok(node) => Ok(node),
        Err(_) => Err(Fail::from("no memory")),
    }
}

// A run to the end over these scripts: what is told there and behind it.
fn run(
    alloc: Global,
    job: &Job,
    shape: Shape,
    scripts: Vec<Vec<Frame>>,
    neighbours: &mut Neighbours,
    seed: u64,
) -> Result<(Told, Told), Fail> {
    let ins = neighbours.links_in(alloc, scripts)?;
    let outs = neighbours.links_out(alloc, shape.processors)?;
    let mut node = grouper(alloc, job, shape, ins, outs)?;
    turn_to_end(&mut node, neighbours, seed)
}

// Whether what came on each link may stand there, is what is wanted beside marks, and has the same marks, of which there is
// one at least.
fn have_given(
    alloc: Global,
    job: &Job,
    neighbours: &Neighbours,
    wanted: &[Vec<Frame>],
) -> Result<bool, Fail> {
    let receivers = neighbours.receivers.as_slice();
    if receivers.len() != wanted.len() || receivers.is_empty() {
        return Ok(false);
    }
    let marks = marks_in(alloc, &receivers[0].came)?;
    for (k, receiver) in receivers.iter().enumerate() {
        let came = receiver.came.as_slice();
        if k >= wanted.len() || others_in(alloc, came)? != wanted[k] {
            return Ok(false);
        }
        if !are_lawful(job, came) || marks_in(alloc, came)? != marks {
            return Ok(false);
        }
    }
    Ok(!marks.is_empty())
}

// Whether each frame may stand where it stands on a link to a processor.
fn are_lawful(job: &Job, frames: &[Frame]) -> bool {
    let mut order = GroupOrder::new();
    for frame in frames {
        if !order.admit(job, frame) {
            return false;
        }
    }
    true
}

#[test]
fn the_groups_of_the_list_come_whatever_the_arrival(rt: HostRuntime) -> Result<(), Fail> {
    let alloc = rt.alloc();
    let job = job(alloc)?;
    for n in 0..27u32 {
        let shape = Shape {
            me: n % 2,
            groupers: 1 + n % 2,
            parsers: 1 + n % 3,
            processors: 1 + n / 3 % 3,
        };
        let mut neighbours = Neighbours::new(alloc);
        let scripts = scripts(alloc, shape.parsers)?;
        let told = run(alloc, &job, shape, scripts, &mut neighbours, u64::from(n))?;
        assert_eq!(rt; told, (Ok(Turn::Done), Ok(Turn::Done)), "run {n}");
        let wanted = wanted(alloc, shape)?;
        let given = have_given(alloc, &job, &neighbours, &wanted)?;
        assert!(rt; given, "run {n}");
    }
    Ok(())
}

fn item(time: u64, capture: u32, number: u64, id: u8) -> Frame {
    Frame::Item(summary((time, capture, number, id)))
}

fn mark(mark: u64) -> Frame {
    Frame::Mark { capture: 1, mark }
}

/// Frames of the second of three parsers, of which the third may not stand there, and its offset: an Item has 59 bytes, a
/// Mark 17, and a CaptureEnd 9.
fn refused(n: u32) -> (Frame, Frame, Frame, u64) {
    let end = Frame::CaptureEnd { capture: 1 };
    match n {
        // An Item below the mark, one whose number is no greater, of another capture, and of another shard.
        0 => (mark(8), item(8, 1, 3, 2), item(7, 1, 4, 2), 76),
        1 => (item(8, 1, 3, 2), mark(8), item(8, 1, 3, 2), 76),
        2 => (mark(8), mark(8), item(8, 0, 3, 2), 34),
        3 => (mark(8), item(8, 1, 3, 2), item(8, 1, 4, 3), 76),
        // A mark that falls, and one behind the end of its capture.
        4 => (mark(8), mark(9), mark(8), 34),
        5 => (item(8, 1, 3, 2), end, mark(9), 68),
        // The end before that of the capture, and a frame of another kind of link.
        6 => (mark(8), item(8, 1, 3, 2), Frame::Finish, 76),
        _ => (mark(8), end, Frame::GroupMark { mark: 9 }, 26),
    }
}

// What each of three parsers puts where the second puts these frames, and the others none.
fn scripts_of(alloc: Global, a: Frame, b: Frame, c: Frame) -> Result<Vec<Vec<Frame>>, Fail> {
    let mut frames = Vec::new(alloc);
    frames.push(a)?;
    frames.push(b)?;
    frames.push(c)?;
    let mut scripts = Vec::new(alloc);
    scripts.push(Vec::new(alloc))?;
    scripts.push(frames)?;
    scripts.push(Vec::new(alloc))?;
    Ok(scripts)
}

#[test]
fn a_frame_that_may_not_stand_is_refused_at_its_offset(rt: HostRuntime) -> Result<(), Fail> {
    let alloc = rt.alloc();
    let job = job(alloc)?;
    let shape = Shape {
        me: 1,
        groupers: 2,
        parsers: 3,
        processors: 2,
    };
    for n in 0..8 {
        let (a, b, c, at) = refused(n);
        let scripts = scripts_of(alloc, a, b, c)?;
        let mut neighbours = Neighbours::new(alloc);
        let told = run(alloc, &job, shape, scripts, &mut neighbours, u64::from(n))?;
        let bad = LinkBad::Order { at };
        let fault = NodeFault::Link { link: 1, bad };
        assert_eq!(rt; told, (Err(fault), Err(fault)), "refusal {n}");
    }
    Ok(())
}
