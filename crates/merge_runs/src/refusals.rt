//! Frames that may not stand where they come.

use crate::captures::Plain;
use crate::runs::{Way, run};
use credit_link::{LinkBad, NodeFault};
use ds_base::{Answer, Counts, Nums, ProfileRow, Stamp, Verdict};
use node_frames::Frame;
use std::alloc::Global;
use std::test::Fail;

fn counts(capture: u32) -> Frame {
    let counts = Counts {
        records: 9,
        unmatched: 2,
        late: 3,
        accepted: 4,
        cut: false,
    };
    Frame::CountsRow { capture, counts }
}

fn answer(time: u64) -> Frame {
    let mut key = Nums::new();
    key.push(7);
    let first = Stamp {
        time,
        capture: 1,
        number: 5,
    };
    Frame::AnswerRow(Answer {
        first,
        key,
        members: 2,
        verdict: Verdict::Fine,
    })
}

fn mark(mark: u64) -> Frame {
    Frame::GroupMark { mark }
}

// A row of one delay of 8 nanoseconds.
fn row(from: u32, to: u32) -> Frame {
    let mut classes = [0; 64];
    classes[4] = 1;
    Frame::Profile(ProfileRow {
        from,
        to,
        count: 1,
        sum: 8,
        least: 8,
        greatest: 8,
        classes,
    })
}

/// A link of a merge of two parsers and three processors, two frames on it, of which the second may not stand there, and its
/// offset: a CountsRow has 42 bytes, an AnswerRow of one number and no more than a verdict's byte 51, a GroupMark 13, and a
/// Profile 565.
fn refused(n: u32) -> (u32, Frame, Frame, u64) {
    match n {
        // A capture's row for the second time, that of another parser's capture, and one of which there is no capture.
        0 => (0, counts(2), counts(2), 42),
        1 => (1, counts(1), counts(2), 42),
        2 => (1, counts(1), counts(3), 42),
        // The end before the rows of all captures of the parser.
        3 => (0, counts(2), Frame::Finish, 42),
        // An answer below the mark, a mark that falls, and a mark or an answer behind a row of the profile.
        4 => (2, mark(9), answer(8), 13),
        5 => (4, mark(9), mark(8), 13),
        6 => (3, row(0, 1), answer(8), 565),
        7 => (3, row(0, 1), mark(9), 565),
        // Rows of one pair, and out of order.
        8 => (2, row(0, 1), row(0, 1), 565),
        9 => (2, row(1, 0), row(0, 2), 565),
        // A frame of another kind of link, on each kind.
        10 => (1, counts(1), mark(9), 42),
        _ => (4, answer(8), counts(0), 51),
    }
}

// What each of five nodes puts where that of this link puts these frames, and the others none.
fn scripts_of(alloc: Global, link: u32, a: &Frame, b: &Frame) -> Result<Vec<Vec<Frame>>, Fail> {
    let mut scripts = Vec::new(alloc);
    for j in 0..5 {
        let mut frames = Vec::new(alloc);
        if j == link {
            frames.push(*a)?;
            frames.push(*b)?;
        }
        scripts.push(frames)?;
    }
    Ok(scripts)
}

#[test]
fn a_frame_that_may_not_stand_is_refused_at_its_offset(rt: HostRuntime) -> Result<(), Fail> {
    let alloc = rt.alloc();
    let plain = Plain::new(alloc)?;
    for n in 0..12 {
        let (link, a, b, at) = refused(n);
        let scripts = scripts_of(alloc, link, &a, &b)?;
        let way = Way {
            seed: u64::from(n),
            piece: 1,
            failing: None,
        };
        let end = run(alloc, &plain, 2, scripts, way)?;
        let bad = LinkBad::Order { at };
        let fault = Err(NodeFault::Link { link, bad });
        assert_eq!(rt; (end.told, end.again), (fault, fault), "refusal {n}");
        assert!(rt; end.written == Some(0), "refusal {n}");
    }
    Ok(())
}
