//! What parsers and processors put for the merge, where the answers and the delays are dealt as is drawn from a seed.
use crate::draws::draw;
use ds_base::{Answer, Counts, Nums, ProfileRow, Stamp, Verdict};
use node_frames::Frame;
use std::alloc::Global;
use std::test::Fail;

/// How many parsers and processors there are.
#[derive(Clone, Copy)]
pub(crate) struct Shape {
    pub(crate) parsers: u32,
    pub(crate) processors: u32,
}

/// One processor of so many, and the seed by which answers and delays are dealt.
#[derive(Clone, Copy)]
struct Deal {
    processor: u64,
    processors: u64,
    seed: u64,
}

impl Deal {
    // Whether the processor has what has this key.
    fn has(self, key: u64) -> bool {
        (draw(self.seed.wrapping_add(key)) >> 33) % self.processors.max(1) == self.processor
    }
}

/// The time of the second in which all records are, in nanoseconds.
pub(crate) const SECOND: u64 = 1_000_000_000;

/// The answers as they are put: the mark that every processor puts before it, and the time of its first member, both in
/// nanoseconds behind `SECOND`; the capture and the number of that member, its identification, and how many members there
/// are. They come three at a time, the last one first, behind the mark of the first one's time.
pub(crate) const ANSWERS: [(u64, u64, u32, u64, u8, u64); 9] = [
    (95, 100, 1, 0, 9, 1),
    (95, 100, 0, 0, 7, 4),
    (95, 95, 0, 1, 8, 2),
    (201, 330, 0, 4, 5, 3),
    (201, 210, 0, 3, 7, 2),
    (201, 201, 2, 4, 9, 1),
    (400, 620, 1, 6, 3, 1),
    (400, 400, 0, 6, 4, 2),
    (400, 400, 0, 5, 6, 2),
];

/// The delays from capture to capture of all groups, in the order of their pairs.
pub(crate) const DELAYS: [(u32, u32, &[u64]); 4] = [
    (0, 1, &[20, 5, 11, 50]),
    (0, 2, &[50, 0]),
    (1, 2, &[70, 11]),
    (2, 2, &[10]),
];

/// How the records of a capture fared.
fn counts(capture: u32) -> Counts {
    let late = if capture == 0 { 1 } else { 0 };
    Counts {
        records: 7,
        unmatched: 1 - late,
        late,
        accepted: 6,
        cut: capture == 2,
    }
}

// The answer to a group; one alone comes back, that of four members, to the third capture.
fn answer(time: u64, capture: u32, number: u64, id: u8, members: u64) -> Answer {
    let mut key = Nums::new();
    key.push(u128::from(id));
    let verdict = if members == 4 {
        Verdict::Loop {
            capture: 2,
            high: 62,
            low: 61,
        }
    } else {
        Verdict::Fine
    };
    let time = SECOND.wrapping_add(time);
    Answer {
        first: Stamp {
            time,
            capture,
            number,
        },
        key,
        members,
        verdict,
    }
}

/// What each parser and then each processor puts.
pub(crate) fn scripts(alloc: Global, shape: Shape, seed: u64) -> Result<Vec<Vec<Frame>>, Fail> {
    let mut scripts = Vec::new(alloc);
    for parser in 0..shape.parsers {
        scripts.push(of_parser(alloc, parser, shape.parsers)?)?;
    }
    for processor in 0..shape.processors {
        let deal = Deal {
            processor: u64::from(processor),
            processors: u64::from(shape.processors),
            seed,
        };
        scripts.push(of_processor(alloc, deal)?)?;
    }
    Ok(scripts)
}

// The counts of a parser's captures, the last one first, and the end.
fn of_parser(alloc: Global, parser: u32, parsers: u32) -> Result<Vec<Frame>, Fail> {
    let mut frames = Vec::new(alloc);
    for capture in [2, 1, 0] {
        if capture % parsers.max(1) == parser {
            let counts = counts(capture);
            frames.push(Frame::CountsRow { capture, counts })?;
        }
    }
    frames.push(Frame::Finish)?;
    Ok(frames)
}

// The marks, a processor's answers, the rows of its delays, and the end.
fn of_processor(alloc: Global, deal: Deal) -> Result<Vec<Frame>, Fail> {
    let mut frames = Vec::new(alloc);
    put_answers(&mut frames, deal)?;
    put_rows(&mut frames, deal)?;
    frames.push(Frame::Finish)?;
    Ok(frames)
}

fn put_answers(frames: &mut Vec<Frame>, deal: Deal) -> Result<(), Fail> {
    for (mark, time, capture, number, id, members) in ANSWERS {
        let mark = SECOND.wrapping_add(mark);
        frames.push(Frame::GroupMark { mark })?;
        if deal.has(time.wrapping_add(number)) {
            let answer = answer(time, capture, number, id, members);
            frames.push(Frame::AnswerRow(answer))?;
        }
    }
    Ok(())
}

fn put_rows(frames: &mut Vec<Frame>, deal: Deal) -> Result<(), Fail> {
    for (from, to, delays) in DELAYS {
        let row = row(from, to, delays, deal);
        if row.count > 0 {
            frames.push(Frame::Profile(row))?;
        }
    }
    Ok(())
}

// The row of a pair, over the delays that a processor has of these.
fn row(from: u32, to: u32, delays: &[u64], deal: Deal) -> ProfileRow {
    let mut row = ProfileRow {
        from,
        to,
        count: 0,
        sum: 0,
        least: u64::MAX,
        greatest: 0,
        classes: [0; 64],
    };
    for delay in delays {
        if deal.has(*delay) {
            count(&mut row, *delay);
        }
    }
    row
}

fn count(row: &mut ProfileRow, delay: u64) {
    row.count = row.count.saturating_add(1);
    row.sum = row.sum.saturating_add(u128::from(delay));
    row.least = row.least.min(delay);
    row.greatest = row.greatest.max(delay);
    let class = 64u32.saturating_sub(delay.leading_zeros()) as usize % 64;
    row.classes[class] = row.classes[class].saturating_add(1);
}
