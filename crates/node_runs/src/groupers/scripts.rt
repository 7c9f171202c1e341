//! What parsers put on their links to a grouper, and what comes of it.
use crate::summaries::{ROWS, Row, groups, put_group, summary};
use node_frames::Frame;
use std::alloc::Global;
use std::test::Fail;

/// Where a grouper stands: its number among so many, and how many nodes it has links from and to.
#[derive(Clone, Copy)]
pub(super) struct Shape {
    pub(super) me: u32,
    pub(super) groupers: u32,
    pub(super) parsers: u32,
    pub(super) processors: u32,
}

/// What each parser puts.
pub(super) fn scripts(alloc: Global, parsers: u32) -> Result<Vec<Vec<Frame>>, Fail> {
    let mut scripts = Vec::new(alloc);
    for parser in 0..parsers {
        scripts.push(script(alloc, parser, parsers)?)?;
    }
    Ok(scripts)
}

// What one parser of so many puts: the items of its captures, each with its mark or the end of its capture behind it.
fn script(alloc: Global, parser: u32, parsers: u32) -> Result<Vec<Frame>, Fail> {
    let mut frames = Vec::new(alloc);
    for (place, mark) in ARRIVALS {
        if let Some(row) = ROWS.get(place) {
            if row.1 % parsers.max(1) == parser {
                put_item(&mut frames, *row, mark)?;
            }
        }
    }
    frames.push(Frame::Finish)?;
    Ok(frames)
}

/// The places of the summaries in an order in which the captures take turns, and behind each the mark of its capture: the
/// greatest time less 10. None: it is the last of its capture.
const ARRIVALS: [(usize, Option<u64>); 20] = [
    (0, Some(990)),
    (1, Some(990)),
    (3, Some(1000)),
    (6, Some(1091)),
    (4, Some(1080)),
    (2, Some(1000)),
    (8, Some(1100)),
    (7, Some(1095)),
    (5, Some(1090)),
    (11, Some(1190)),
    (12, Some(1191)),
    (9, Some(1140)),
    (15, Some(1290)),
    (10, Some(1191)),
    (13, Some(1192)),
    (14, Some(1290)),
    (16, None),
    (17, Some(1490)),
    (18, None),
    (19, None),
];

fn put_item(frames: &mut Vec<Frame>, row: Row, mark: Option<u64>) -> Result<(), Fail> {
    let capture = row.1;
    frames.push(Frame::Item(summary(row)))?;
    match mark {
        Some(mark) => frames.push(Frame::Mark { capture, mark })?,
        None => frames.push(Frame::CaptureEnd { capture })?,
    }
    Ok(())
}

/// What has to come on each link to a processor beside marks: the groups of the plain program, dealt in turn, and the
/// end.
pub(super) fn wanted(alloc: Global, shape: Shape) -> Result<Vec<Vec<Frame>>, Fail> {
    let mut wanted = Vec::new(alloc);
    for processor in 0..shape.processors {
        wanted.push(dealt(alloc, shape, processor)?)?;
    }
    Ok(wanted)
}

fn dealt(alloc: Global, shape: Shape, processor: u32) -> Result<Vec<Frame>, Fail> {
    let groups = groups(alloc)?;
    let mut frames = Vec::new(alloc);
    for k in 0..groups.len() {
        let turn = k.wrapping_add(u64::from(shape.me)) % u64::from(shape.processors.max(1));
        if turn == u64::from(processor) {
            put_group(&mut frames, groups.get(k))?;
        }
    }
    frames.push(Frame::Finish)?;
    Ok(frames)
}
