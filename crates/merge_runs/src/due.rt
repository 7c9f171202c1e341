//! Which lines of the report the frames taken allow.
use crate::scripts::{ANSWERS, DELAYS, SECOND};
use node_frames::Frame;

/// What the frames taken so far tell of the lines that may be written.
#[derive(Clone, Copy)]
pub(crate) struct Due {
    /// The least of the last marks of the processors that go on: 0 for one without a mark, and the greatest number where
    /// all have ended.
    mark: u64,
    /// Which captures have a row.
    captures: [bool; 3],
}

impl Due {
    /// No link was looked at.
    pub(crate) fn new() -> Due {
        Due {
            mark: u64::MAX,
            captures: [false; 3],
        }
    }

    /// Of a parser's script so many frames were taken.
    pub(crate) fn add_counts(&mut self, script: &[Frame], taken: u64) {
        for (i, frame) in script.iter().enumerate() {
            if let Frame::CountsRow { capture, .. } = frame {
                if (i as u64) < taken {
                    self.captures[*capture as usize % 3] = true;
                }
            }
        }
    }

    /// Of a processor's script so many frames were taken.
    pub(crate) fn add_answers(&mut self, script: &[Frame], taken: u64) {
        let mut last = 0;
        for (i, frame) in script.iter().enumerate() {
            if (i as u64) < taken {
                last = mark_behind(last, frame);
            }
        }
        self.mark = self.mark.min(last);
    }

    /// How many lines these are: the answers below the mark; and where all processors have ended, the rows of the profile,
    /// the captures up to the first one without a row, and behind the last one the end.
    pub(crate) fn lines(&self) -> usize {
        let answers = answers_below(self.mark);
        if self.mark < u64::MAX {
            return answers;
        }
        let ends = match self.captures {
            [false, _, _] => 0,
            [true, false, _] => 1,
            [true, true, false] => 2,
            [true, true, true] => 4,
        };
        answers.saturating_add(DELAYS.len()).saturating_add(ends)
    }
}

// The mark of a link behind this frame.
fn mark_behind(mark: u64, frame: &Frame) -> u64 {
    match frame {
        Frame::GroupMark { mark } => *mark,
        Frame::Finish => u64::MAX,
        _ => mark,
    }
}

// How many answers have a first time below a mark.
fn answers_below(mark: u64) -> usize {
    let mut count = 0usize;
    for (_, time, ..) in ANSWERS {
        if SECOND.wrapping_add(time) < mark {
            count = count.saturating_add(1);
        }
    }
    count
}

/// How many bytes the first so many lines of a text have.
pub(crate) fn length_of_lines(text: &str, lines: usize) -> usize {
    let mut left = lines;
    for (i, byte) in text.as_bytes().iter().enumerate() {
        if left == 0 {
            return i;
        }
        if *byte == b'\n' {
            left -= 1;
        }
    }
    text.len()
}
