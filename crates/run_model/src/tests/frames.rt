//! The links of a run, and what may stand on them.
ghost use Rattle.std.specs.Prelude.{◌<◌, ◌≤◌};

use frame_order::{CountsOrder, GroupOrder, ItemLink, ItemOrder};
use node_frames::Frame;
use std::alloc::Global;
use std::test::Fail;
use summary_spec::Job;

/// The kinds of links, by what they carry: from parsers to groupers and to the merge, from groupers to processors,
/// and from processors to the merge.
#[derive(Clone, Copy, PartialEq, Eq)]
pub(super) enum Kind {
    Items,
    Counts,
    Groups,
    Answers,
}

use Kind::{Answers, Counts, Groups, Items};

/// A link: its kind, and the numbers of the node that puts and of the one that takes.
pub(super) type Link = (Kind, u32, u32);

/// A frame and its link.
pub(super) type Sent = (Link, Frame);

/// How many parsers, groupers and processors there are.
#[derive(Clone, Copy)]
pub(super) struct Shape {
    pub(super) parsers: u32,
    pub(super) groupers: u32,
    pub(super) processors: u32,
    ghost parsing: { 0 < parsers },
    ghost grouping: { 0 < groupers },
    ghost few: { groupers ≤ 3 },
    ghost processing: { 0 < processors },
}

/// The number of the node to which a number belongs in turn.
pub(super) fn owner(number: u64, nodes: u32) -> u32
    requires { 0 < nodes }
    ensures { result < nodes }
{
    (number % u64::from(nodes)) as u32
}

impl Shape {
    /// The shape of 1 to 3 of each that has this number among 27.
    pub(super) fn numbered(n: u64) -> Shape {
        Shape {
            parsers: 1 + owner(n, 3),
            groupers: 1 + owner(n / 3, 3),
            processors: 1 + owner(n / 9, 3),
        }
    }

    /// How many nodes put on links of a kind.
    pub(super) fn putters(&self, kind: Kind) -> u32 {
        match kind {
            Items | Counts => self.parsers,
            Groups => self.groupers,
            Answers => self.processors,
        }
    }

    /// How many nodes take from links of a kind.
    pub(super) fn takers(&self, kind: Kind) -> u32 {
        match kind {
            Items => self.groupers,
            Groups => self.processors,
            Counts | Answers => 1,
        }
    }
}

/// Puts a frame on all links of a kind from a node.
pub(super) fn put_all(
    sent: &mut Vec<Sent>,
    shape: Shape,
    kind: Kind,
    from: u32,
    frame: &Frame,
) -> Result<(), Fail> {
    for to in 0..shape.takers(kind) {
        sent.push(((kind, from, to), *frame))?;
    }
    Ok(())
}

/// Of these frames those of a link.
pub(super) fn on(alloc: Global, sent: &[Sent], link: Link) -> Result<Vec<Frame>, Fail> {
    let mut frames = Vec::new(alloc);
    for (of, frame) in sent {
        if *of == link {
            frames.push(*frame)?;
        }
    }
    Ok(frames)
}

/// Whether each frame may stand where it stands on a link.
pub(super) fn are_lawful(job: &Job, shape: Shape, link: Link, frames: &[Frame]) -> bool {
    let (kind, parser, grouper) = link;
    let items = ItemLink {
        parsers: shape.parsers,
        parser,
        groupers: shape.groupers,
        grouper,
    };
    let mut item_order = ItemOrder::new();
    let mut counts_order = CountsOrder::new();
    let mut group_order = GroupOrder::new();
    for frame in frames {
        let may = match kind {
            Items => item_order.admit(job, items, frame),
            Counts => counts_order.admit(job, shape.parsers, parser, frame),
            Groups => group_order.admit(job, frame),
            Answers => true,
        };
        if !may {
            return false;
        }
    }
    kind != Answers || are_answers(frames)
}

// Whether marks rise, no answer is below one before it, rows come behind all answers, and nothing behind the end.
fn are_answers(frames: &[Frame]) -> bool {
    let (mut least, mut stage) = (0, 0);
    for frame in frames {
        match frame {
            Frame::AnswerRow(answer) if stage == 0 && least <= answer.first.time => {}
            Frame::GroupMark { mark } if stage == 0 && least <= *mark => least = *mark,
            Frame::Profile(_) if stage < 2 => stage = 1,
            Frame::Finish if stage < 2 => stage = 2,
            _ => return false,
        }
    }
    true
}
