//! What parsers, groupers and processors put.
ghost use Rattle.std.specs.Prelude.{◌≡◌, ◌<◌, ◌+◌, ◌^◌, List, [], IfOk, OnOk, IsTrue, length, replicate};
ghost use Rattle.key_select.specs.Tally.{capture_of, records_taken};
ghost use Rattle.node_frames.specs.declared.frame.Frame.{Frame as FrameSeen};
ghost use Rattle.pcap_reader.specs.Lent.{captured, IsLawful};
ghost use Rattle.query_state.specs.States.{MayTake, taken_more};
ghost use Rattle.summary_spec.specs.Declaration.{Declared};
ghost use Rattle.summary_spec.specs.Job.{declared_of};
ghost use Rattle.run_model.specs.Stands.{Stands};

use super::frames::Kind::{Answers, Counts, Groups, Items};
use super::frames::{Sent, Shape, owner, put_all};
use ds_base::{Answer, Group};
use frame_order::GroupOrder;
use key_select::{Tally, shard, wanted_of};
use node_frames::Frame;
use pcap_reader::{PcapReader, RecordRef};
use query_state::QueryState;
use std::alloc::Global;
use std::test::Fail;
use summary_spec::Job;
use window_grouper::Grouper;

/// What a parser puts of a capture, of which the last file ends inside a record: each accepted summary, a mark behind
/// each record, the end, and the counts.
pub(super) fn stream(
    alloc: Global,
    job: &Job,
    capture: u32,
    bytes: &[u8],
) -> Result<Vec<Frame>, Fail> {
    if u64::from(capture) >= job.names.captures.len() || bytes.len() > 4096 {
        return Err(Fail::from("no such capture"));
    }
    let mut reader = PcapReader::for_interface(alloc, wanted_of(job, capture));
    reader.feed(bytes)?;
    let mut tally = Tally::new(job, capture);
    let mut frames = Vec::new(alloc);
    for i in 0..64u64 {
        let Ok(Some(r)) = reader.next() else {
            break;
        };
        take_record(&mut frames, &mut tally, job, capture, &r)?;
    }
    let counts = tally.counts(capture == 2);
    frames.push(Frame::CaptureEnd { capture })?;
    frames.push(Frame::CountsRow { capture, counts })?;
    Ok(frames)
}

// Puts the summary of a record, where it is accepted, and the mark.
fn take_record(
    frames: &mut Vec<Frame>,
    tally: &mut Tally,
    job: &Job,
    capture: u32,
    r: &RecordRef<'_>,
) -> Result<(), Fail>
    requires named { capture_of tally.old < length job.now.names.captures.items }
    requires lawful { IsLawful (captured r.now) }
    requires few { records_taken tally.old < 2 ^ 63 }
    ensures capture { capture_of tally.new ≡ capture_of tally.old }
    ensures records { OnOk result (records_taken tally.new ≡ records_taken tally.old + 1) }
{
    if let Some(summary) = tally.take_up(job, r) {
        frames.push(Frame::Item(summary))?;
    }
    let mark = tally.mark();
    frames.push(Frame::Mark { capture, mark })?;
    Ok(())
}

/// What all parsers put: the frames of their captures, which take turns, and their ends.
pub(super) fn parsed(
    alloc: Global,
    streams: &[Vec<Frame>],
    shape: Shape,
) -> Result<Vec<Sent>, Fail> {
    let mut sent = Vec::new(alloc);
    for place in 0..16 {
        for (c, stream) in streams.iter().enumerate() {
            if let Some(frame) = stream.get(place) {
                put_of(&mut sent, shape, owner(c as u64, shape.parsers), frame)?;
            }
        }
    }
    for parser in 0..shape.parsers {
        put_all(&mut sent, shape, Items, parser, &Frame::Finish)?;
        put_all(&mut sent, shape, Counts, parser, &Frame::Finish)?;
    }
    Ok(sent)
}

// Puts a frame of a capture where it belongs.
fn put_of(sent: &mut Vec<Sent>, shape: Shape, parser: u32, frame: &Frame) -> Result<(), Fail> {
    match frame {
        Frame::Item(s) => {
            let grouper = shard(&s.key, shape.groupers);
            Ok(sent.push(((Items, parser, grouper), *frame))?)
        }
        Frame::CountsRow { .. } => put_all(sent, shape, Counts, parser, frame),
        _ => put_all(sent, shape, Items, parser, frame),
    }
}

/// What a grouper puts of the frames that it took: behind each one the groups that are closed then, and the mark, where
/// that has risen, or the end.
pub(super) fn grouped(
    alloc: Global,
    window: u64,
    shape: Shape,
    grouper: u32,
    taken: &[Sent],
) -> Result<Vec<Sent>, Fail> {
    let mut node = Grouper::new(alloc, 3, window);
    let mut sent = Vec::new(alloc);
    let (mut turn, mut last) = (u64::from(grouper), Some(0));
    for (link, frame) in taken {
        if link.0 == Items && link.2 == grouper {
            group_frame(&mut node, frame)?;
            'closed: for _ in 0..u64::MAX {
                let Some(group) = node.next_closed()? else {
                    break;
                };
                put_group(&mut sent, shape, grouper, turn, &group)?;
                turn = turn.wrapping_add(1);
            }
            let mark = node.out_mark();
            if mark != last {
                put_all(&mut sent, shape, Groups, grouper, &mark_or_end(mark))?;
                last = mark;
            }
        }
    }
    Ok(sent)
}

fn mark_or_end(mark: Option<u64>) -> Frame {
    match mark {
        Some(mark) => Frame::GroupMark { mark },
        None => Frame::Finish,
    }
}

// A grouper takes a frame.
fn group_frame(node: &mut Grouper, frame: &Frame) -> Result<(), Fail>
    requires { length node.old.marks ≡ 3 }
    ensures { OnOk result (length node.new.marks ≡ 3) }
{
    match frame {
        Frame::Item(s) if s.at.capture < 3 && node.may_add(&s.at) => node.add(*s)?,
        Frame::Mark { capture, mark } if *capture < 3 => node.raise(*capture, *mark),
        Frame::CaptureEnd { capture } if *capture < 3 => node.end(*capture),
        Frame::Finish => {}
        _ => return Err(Fail::from("a frame that may not come")),
    }
    Ok(())
}

// Puts a group for the processor whose turn it is.
fn put_group(
    sent: &mut Vec<Sent>,
    shape: Shape,
    grouper: u32,
    turn: u64,
    group: &Group,
) -> Result<(), Fail> {
    let link = (Groups, grouper, owner(turn, shape.processors));
    let (members, key) = (group.members.len(), group.key);
    for i in 0..members {
        let s = *group.members.get(i);
        if i == 0 {
            let first = s.at;
            let head = Frame::GroupHead {
                first,
                members,
                key,
            };
            sent.push((link, head))?;
        }
        let (at, vals) = (s.at, s.vals);
        sent.push((link, Frame::Member { at, vals }))?;
    }
    Ok(())
}

/// What a processor puts of the frames that it took: behind each one the answer, where a group is whole with it, and
/// what is due then.
pub(super) fn answered(
    alloc: Global,
    job: &Job,
    shape: Shape,
    processor: u32,
    taken: &[Sent],
) -> Result<Vec<Sent>, Fail> {
    let mut lanes = empty_lanes(alloc, shape.groupers)?;
    let mut state = QueryState::new(alloc, shape.groupers)?;
    let link_out = (Answers, processor, 0);
    let mut sent = Vec::new(alloc);
    for (link, frame) in taken {
        if link.0 == Groups && link.2 == processor {
            if let Some(answer) = take_frame(&mut lanes, &mut state, job, link.1, frame)? {
                sent.push((link_out, Frame::AnswerRow(answer)))?;
            }
            'due: for _ in 0..u64::MAX {
                let Some(due) = next_due(&mut state) else {
                    break;
                };
                sent.push((link_out, due))?;
            }
        }
    }
    Ok(sent)
}

fn next_due(state: &mut QueryState) -> Option<Frame>
    ensures { (job : Declared) (taken : List (List FrameSeen)) → Stands job taken state.old → Stands job taken state.new }
{
    state.next_due()
}

// The frames taken on each link, of which none came yet.
fn empty_lanes(alloc: Global, links: u32) -> Result<Vec<GroupOrder>, Fail>
    ensures { IfOk result (λ lanes. lanes.items ≡ replicate links []) }
{
    let mut lanes = Vec::new(alloc);
    for _ in 0..links {
        lanes.push(GroupOrder::new())?;
    }
    Ok(lanes)
}

// Whether the frame may be the next on this link, where it is kept then.
fn admit_at(lanes: &mut Vec<GroupOrder>, job: &Job, link: u32, frame: &Frame) -> bool
    ensures may { IsTrue result → MayTake (declared_of job.now) lanes.old.items link frame.now }
    ensures kept { IsTrue result → lanes.new.items ≡ taken_more lanes.old.items link frame.now }
{
    if link as usize >= lanes.len() {
        return false;
    }
    lanes[link as usize].admit(job, frame)
}

// A processor takes a frame: the answer, where a group is whole with it.
fn take_frame(
    lanes: &mut Vec<GroupOrder>,
    state: &mut QueryState,
    job: &Job,
    link: u32,
    frame: &Frame,
) -> Result<Option<Answer>, Fail>
    requires { Stands (declared_of job.now) lanes.old.items state.old }
    ensures { OnOk result (Stands (declared_of job.now) lanes.new.items state.new) }
{
    if !admit_at(lanes, job, link, frame) {
        return Err(Fail::from("a frame that may not come"));
    }
    let answer = state.take(job, link, frame)?;
    Ok(answer)
}
