//! What the merge writes.
ghost use Rattle.std.specs.Prelude.{IsTrue, ◌<◌};
ghost use Rattle.answer_text.specs.Lines.{IsNamedIn};

use super::frames::Kind::Answers;
use super::frames::{Sent, Shape, on};
use answer_text::{push_answer_line, push_capture_line, push_end_line};
use ds_base::{Answer, Text, Verdict};
use node_frames::Frame;
use query_lang::Names;
use std::alloc::Global;
use std::test::Fail;

/// The lines that may be written by the frames taken: those of answers below the least mark of the processors that go
/// on, and once none goes on all lines.
pub(super) fn lines(
    alloc: Global,
    names: &Names,
    shape: Shape,
    taken: &[Sent],
) -> Result<Text, Fail> {
    let mut answers = Vec::new(alloc);
    let mut least = u64::MAX;
    for processor in 0..shape.processors {
        let frames = on(alloc, taken, (Answers, processor, 0))?;
        least = least.min(take_all(&mut answers, &frames)?);
    }
    answers.sort_by_key(|answer| answer.first)?;
    let mut text = Text::new(alloc);
    for answer in &answers {
        if answer.first.time >= least {
            return Ok(text);
        }
        put_answer(&mut text, names, answer)?;
    }
    if least == u64::MAX {
        put_counts(&mut text, names, taken, answers.len() as u64)?;
    }
    Ok(text)
}

// Takes the answers of a processor up, and gives its last mark, the greatest number where it has ended.
fn take_all(answers: &mut Vec<Answer>, frames: &[Frame]) -> Result<u64, Fail> {
    let mut last = 0;
    for frame in frames {
        match frame {
            Frame::AnswerRow(answer) => answers.push(*answer)?,
            Frame::GroupMark { mark } => last = *mark,
            Frame::Finish => last = u64::MAX,
            _ => {}
        }
    }
    Ok(last)
}

fn put_answer(text: &mut Text, names: &Names, answer: &Answer) -> Result<(), Fail> {
    let captures = names.captures.len();
    if u64::from(answer.first.capture) >= captures || !is_named(captures, &answer.verdict) {
        return Err(Fail::from("an answer of another capture"));
    }
    push_answer_line(text, names, answer)?;
    Ok(())
}

// Whether the captures of the verdict are some of these.
fn is_named(captures: u64, verdict: &Verdict) -> bool
    ensures { IsTrue result → IsNamedIn captures verdict.now }
{
    match verdict {
        Verdict::Loop { capture, .. } => u64::from(*capture) < captures,
        Verdict::Dropped { capture } => u64::from(*capture) < captures,
        _ => true,
    }
}

// Puts the lines of the captures up to the first of which no row was taken, and the last line where there is none such.
fn put_counts(text: &mut Text, names: &Names, taken: &[Sent], groups: u64) -> Result<(), Fail> {
    let (mut next, mut summaries) = (0u32, 0u64);
    for _ in 0..3 {
        for (_, frame) in taken {
            match frame {
                Frame::CountsRow { capture, counts }
                    if *capture == next && u64::from(next) < names.captures.len() => {
                    push_capture_line(text, names, next, counts)?;
                    next = next.saturating_add(1);
                    summaries = summaries.saturating_add(counts.accepted);
                }
                _ => {}
            }
        }
    }
    if next == 3 {
        push_end_line(text, groups, summaries)?;
    }
    Ok(())
}
