//! Runs of a query processor to its end, or to its fault.
ghost use Rattle.std.specs.Prelude.{All};
ghost use Rattle.net_law.specs.Starts.{IsNewTx, IsNewRx};

use super::answers::{answers_in_order, marks, scripts, wanted};
use crate::links::{Ins, Neighbours, Outs};
use crate::summaries::{job, marks_in, others_in, summary};
use crate::turns::{Node, Told, turn_to_end};
use answer_order::AnswerOrder;
use credit_link::{LinkBad, NodeFault, RingRx, RingTx, Turn};
use ds_base::Summary;
use node_frames::Frame;
use query_node::QueryNode;
use std::alloc::Global;
use std::process::Abort;
use std::test::Fail;
use summary_spec::Job;

impl<'a> Node for QueryNode<'a, RingTx, RingRx> {
    fn step(&mut self, cut: u32) -> Told {
        self.turn(cut)
    }
}

/// A new processor over these links.
fn processor<'a>(
    alloc: Global,
    job: &'a Job,
    ins: Ins,
    outs: Outs,
) -> Result<QueryNode<'a, RingTx, RingRx>, Fail>
    requires ins { All (IsNewRx 2) ins.items }
    requires outs { All (IsNewTx 2) outs.items }
{
    let groupers = ins.len();
    if groupers < 1 || groupers > 16 || outs.len() != 1 {
        return Err(Fail::from("no such processor"));
    }
    match QueryNode::new(alloc, job, ins, outs) {
        Ok(node) => Ok(node),
        Err(_) => Err(Fail::from("no memory")),
    }
}

// A run to the end over these scripts: what is told there and behind it, and what came by then.
fn run(
    alloc: Global,
    job: &Job,
    scripts: Vec<Vec<Frame>>,
    seed: u64,
) -> Result<((Told, Told), Vec<Frame>), Fail> {
    let mut neighbours = Neighbours::new(alloc);
    let ins = neighbours.links_in(alloc, scripts)?;
    let outs = neighbours.links_out(alloc, 1)?;
    let mut node = processor(alloc, job, ins, outs)?;
    let told = turn_to_end(&mut node, &mut neighbours, seed)?;
    let mut came = Vec::new(alloc);
    for receiver in &neighbours.receivers {
        came.extend_from_slice(&receiver.came)?;
    }
    Ok((told, came))
}

// Whether each frame may stand where it stands on the link to the merge.
fn are_lawful(job: &Job, frames: &[Frame]) -> bool {
    let mut order = AnswerOrder::new();
    for frame in frames {
        if !order.admit(job, frame) {
            return false;
        }
    }
    true
}

#[test]
fn each_group_is_answered_whatever_the_arrival(rt: HostRuntime) -> Result<(), Fail> {
    let alloc = rt.alloc();
    let job = job(alloc)?;
    let wanted = wanted(alloc, &job)?;
    let marks = marks(alloc)?;
    for n in 0..18u32 {
        let scripts = scripts(alloc, 1 + n % 3)?;
        let (told, came) = run(alloc, &job, scripts, u64::from(n))?;
        assert_eq!(rt; told, (Ok(Turn::Done), Ok(Turn::Done)), "run {n}");
        assert!(rt; are_lawful(&job, &came), "run {n}");
        // Each mark comes once all links have it, and before any later one.
        assert!(rt; marks_in(alloc, &came)? == marks, "run {n}");
        let others = others_in(alloc, &came)?;
        assert!(rt; answers_in_order(alloc, &others)? == wanted, "run {n}");
    }
    Ok(())
}

/// A frame that is put on the second of three links, by what is told of it here.
#[derive(Clone, Copy)]
enum Put {
    Head { time: u64, members: u64 },
    Member { time: u64 },
    Mark { mark: u64 },
    Item { time: u64 },
    Finish,
}

fn frame(put: Put) -> Frame {
    match put {
        Put::Head { time, members } => {
            let Summary { at, key, .. } = summary((time, 1, time, 2));
            Frame::GroupHead {
                first: at,
                members,
                key,
            }
        }
        Put::Member { time } => {
            let Summary { at, vals, .. } = summary((time, 1, time, 2));
            Frame::Member { at, vals }
        }
        Put::Mark { mark } => Frame::GroupMark { mark },
        Put::Item { time } => Frame::Item(summary((time, 1, time, 2))),
        Put::Finish => Frame::Finish,
    }
}

use Put::{Finish, Head, Item, Mark, Member};

/// Frames of which the third may not stand there, and its offset: a GroupHead has 50 bytes, a Member 42, and a
/// GroupMark 13.
const REFUSED: [([Put; 3], u64); 8] = [
    // A member too many, one behind the window, and a head, a mark and the end before the group is whole.
    (
        [
            Head {
                time: 8,
                members: 1,
            },
            Member { time: 8 },
            Member { time: 9 },
        ],
        92,
    ),
    (
        [
            Head {
                time: 8,
                members: 2,
            },
            Member { time: 8 },
            Member { time: 109 },
        ],
        92,
    ),
    (
        [
            Head {
                time: 8,
                members: 2,
            },
            Member { time: 8 },
            Head {
                time: 9,
                members: 1,
            },
        ],
        92,
    ),
    (
        [
            Head {
                time: 8,
                members: 2,
            },
            Member { time: 8 },
            Mark { mark: 9 },
        ],
        92,
    ),
    (
        [
            Head {
                time: 8,
                members: 2,
            },
            Member { time: 8 },
            Finish,
        ],
        92,
    ),
    // A head below the mark, a mark that falls, and a frame of another kind of link.
    (
        [
            Mark { mark: 8 },
            Mark { mark: 9 },
            Head {
                time: 8,
                members: 1,
            },
        ],
        26,
    ),
    ([Mark { mark: 8 }, Mark { mark: 9 }, Mark { mark: 8 }], 26),
    ([Mark { mark: 8 }, Mark { mark: 9 }, Item { time: 9 }], 26),
];

// What each of three groupers puts where the second puts these frames, and the others none.
fn scripts_of(alloc: Global, puts: [Put; 3]) -> Result<Vec<Vec<Frame>>, Fail> {
    let mut frames = Vec::new(alloc);
    frames.push(frame(puts[0]))?;
    frames.push(frame(puts[1]))?;
    frames.push(frame(puts[2]))?;
    let mut scripts = Vec::new(alloc);
    scripts.push(Vec::new(alloc))?;
    scripts.push(frames)?;
    scripts.push(Vec::new(alloc))?;
    Ok(scripts)
}

#[test]
fn a_frame_that_may_not_stand_is_refused_at_its_offset(rt: HostRuntime) -> Result<(), Fail> {
    let alloc = rt.alloc();
    let job = job(alloc)?;
    for (n, (puts, at)) in REFUSED.iter().enumerate() {
        let scripts = scripts_of(alloc, *puts)?;
        let (told, _) = run(alloc, &job, scripts, n as u64)?;
        let bad = LinkBad::Order { at: *at };
        let fault = NodeFault::Link { link: 1, bad };
        assert_eq!(rt; told, (Err(fault), Err(fault)), "refusal {n}");
    }
    Ok(())
}
