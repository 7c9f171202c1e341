//! The lines of the report: the answer to a group, the delays between two capture points, the counts
//! of a capture, and the last line. Each is exactly one text for what it says and ends with a newline.
//! A `push_` call writes its line at the end of a text. Where it is refused for want of memory the text
//! is as it was: the line is made first, in a text of its own.
#![tactic(auto)]

mod answer;
mod capture;
mod pieces;
mod profile;
mod verdict;

pub use answer::{answer_line, push_answer_line};
pub use capture::{capture_line, end_line, push_capture_line, push_end_line};
pub use profile::{profile_line, push_profile_line};

#[cfg(test)]
mod tests;
