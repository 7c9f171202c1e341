//! The frames from a query processor to the merge.
ghost use Rattle.std.specs.Prelude.{◌≡◌, ◌≤◌, ◌+◌, ◌^◌, ◌↔◌, IsTrue, IsFalse, [], ◌∷◌, ◌++◌};
ghost use Rattle.std.specs.List.{AllByRecursion, list_any};
ghost use Rattle.node_frames.specs.declared.frame.Frame.TheVariants.{GroupMark, AnswerRow, Profile, Finish};
ghost use Rattle.summary_spec.specs.Job.{declared_of};
ghost use Rattle.run_law.specs.Links.{MayFollow, AreLawful, AnswerRule, members_answered};
ghost use Rattle.frame_order.specs.Groups.{GroupMarkFits};
ghost use Rattle.frame_order.specs.Said.{greatest, group_mark_of, is_profile, is_finish};
ghost use Rattle.answer_order.specs.Answers.{IsAfterRow, RowFits};

use crate::numbers::{is_time, is_within_sum};
use crate::of_job::{is_answer_of, is_row_of};
use crate::row_pair::{RowPair, is_before};
use ds_base::{Answer, ProfileRow};
use ghost_list::GhostList;
use node_frames::Frame;
use std::marker::Model;
use summary_spec::Job;

/// What is kept of the frames that came from a processor to the merge, to tell which may follow. Contracts
/// see these frames.
#[derive(Drop)]
pub struct AnswerOrder {
    /// How many members the answers tell of.
    told: u64,
    /// The last GroupMark, 0 before the first.
    mark: u64,
    /// The pair of the last row of the profile, if a row came.
    last: Option<RowPair>,
    /// Whether the link has ended.
    finished: bool,
    frames: GhostList<Frame>,
}

impl Model for AnswerOrder {
    ghost use Rattle.std.specs.Prelude.{List};
    ghost use Rattle.node_frames.specs.declared.frame.Frame.{Frame};
    ghost use Rattle.answer_order.specs.Answers.{KeepsAnswers};

    ghost Value = { List Frame };

    ghost view = { λ o. o.frames.items };

    ghost invariant = { λ o. KeepsAnswers o.told o.mark o.last o.finished o.frames.items };
}

impl AnswerOrder {
    /// Before the first frame.
    pub fn new() -> Self
        ensures { result ≡ [] }
    {
        AnswerOrder {
            told: 0,
            mark: 0,
            last: None,
            finished: false,
            frames: GhostList::new(),
        }
    }

    /// Takes the frame up if it may stand behind those before it, and answers whether it may.
    pub fn admit(&mut self, job: &Job, frame: &Frame) -> bool
        ensures exact { IsTrue result ↔ MayFollow (AnswerRule (declared_of job.now)) self.old frame.now }
        ensures lawful { IsTrue result → AreLawful (AnswerRule (declared_of job.now)) self.old → AreLawful (AnswerRule (declared_of job.now)) self.new }
        ensures takes { IsTrue result → self.new ≡ self.old ++ frame.now ∷ [] }
        ensures refuses { IsFalse result → self.new ≡ self.old }
    {
        self.decide(job, frame)
    }

    /// The same, kind by kind.
    fn decide(&mut self, job: &Job, frame: &Frame) -> bool
        ensures exact { IsTrue result ↔ MayFollow (AnswerRule (declared_of job.now)) self.old frame.now }
        ensures takes { IsTrue result → self.new ≡ self.old ++ frame.now ∷ [] }
        ensures refuses { IsFalse result → self.new ≡ self.old }
    {
        match frame {
            Frame::AnswerRow(answer) => self.admit_answer(job, frame, answer),
            Frame::GroupMark { mark } => self.admit_mark(job, frame, *mark),
            Frame::Profile(row) => self.admit_row(job, frame, row),
            Frame::Finish => self.admit_finish(job, frame),
            _ => false,
        }
    }

    /// Takes an answer up if it may follow.
    fn admit_answer(&mut self, job: &Job, frame: &Frame, answer: &Answer) -> bool
        requires { frame.now ≡ AnswerRow answer.now }
        ensures exact { IsTrue result ↔ MayFollow (AnswerRule (declared_of job.now)) self.old (AnswerRow answer.now) }
        ensures takes { IsTrue result → self.new ≡ self.old ++ frame.now ∷ [] }
        ensures refuses { IsFalse result → self.new ≡ self.old }
    {
        if !is_answer_of(job, answer) {
            return false;
        }
        if !self.has_room_for(answer.members) {
            return false;
        }
        if !self.fits_mark(answer.first.time) {
            return false;
        }
        self.take_answer(frame, answer);
        true
    }

    /// Takes a GroupMark up if it may follow.
    fn admit_mark(&mut self, job: &Job, frame: &Frame, mark: u64) -> bool
        requires { frame.now ≡ GroupMark mark }
        ensures exact { IsTrue result ↔ MayFollow (AnswerRule (declared_of job.now)) self.old (GroupMark mark) }
        ensures takes { IsTrue result → self.new ≡ self.old ++ frame.now ∷ [] }
        ensures refuses { IsFalse result → self.new ≡ self.old }
    {
        if !is_time(mark) {
            return false;
        }
        if !self.fits_mark(mark) {
            return false;
        }
        self.take_mark(frame, mark);
        true
    }

    /// Takes a row of the profile up if it may follow.
    fn admit_row(&mut self, job: &Job, frame: &Frame, row: &ProfileRow) -> bool
        requires { frame.now ≡ Profile row.now }
        ensures exact { IsTrue result ↔ MayFollow (AnswerRule (declared_of job.now)) self.old (Profile row.now) }
        ensures takes { IsTrue result → self.new ≡ self.old ++ frame.now ∷ [] }
        ensures refuses { IsFalse result → self.new ≡ self.old }
    {
        if !is_row_of(job, row) {
            return false;
        }
        if !self.fits_row(row) {
            return false;
        }
        self.take_row(frame, row);
        true
    }

    /// Takes the link's end up if it may follow.
    fn admit_finish(&mut self, job: &Job, frame: &Frame) -> bool
        requires { frame.now ≡ Finish }
        ensures exact { IsTrue result ↔ MayFollow (AnswerRule (declared_of job.now)) self.old Finish }
        ensures takes { IsTrue result → self.new ≡ self.old ++ frame.now ∷ [] }
        ensures refuses { IsFalse result → self.new ≡ self.old }
    {
        if self.is_finished() {
            return false;
        }
        self.take_finish(frame);
        true
    }

    /// Whether all answers together still tell of few enough members with so many more.
    fn has_room_for(&self, members: u64) -> bool
        ensures { IsTrue result ↔ (members_answered self.now + members ≤ 2 ^ 50) }
    {
        is_within_sum(self.told, members, 1 << 50)
    }

    /// Whether no frame before forbids this GroupMark, nor an answer for a group that begins then.
    fn fits_mark(&self, mark: u64) -> bool
        ensures { IsTrue result ↔ GroupMarkFits self.now mark }
    {
        !self.is_finished() && !self.has_row() && self.mark() <= mark
    }

    /// Whether no frame before forbids this row.
    fn fits_row(&self, row: &ProfileRow) -> bool
        ensures { IsTrue result ↔ RowFits self.now row.now }
    {
        !self.is_finished() && self.is_after_rows(row)
    }

    /// Whether the pairs of all rows before are before that of this one.
    fn is_after_rows(&self, row: &ProfileRow) -> bool
        ensures { IsTrue result ↔ AllByRecursion (IsAfterRow row.now) self.now }
    {
        match &self.last {
            Some(last) => is_before(last, row),
            None => true,
        }
    }

    /// The last GroupMark, 0 before the first.
    fn mark(&self) -> u64
        ensures { result ≡ greatest group_mark_of self.now }
    {
        self.mark
    }

    /// Whether a row of the profile came.
    fn has_row(&self) -> bool
        ensures { result ≡ list_any is_profile self.now }
    {
        self.last.is_some()
    }

    /// Whether the link's end came.
    fn is_finished(&self) -> bool
        ensures { result ≡ list_any is_finish self.now }
    {
        self.finished
    }

    /// Takes up an answer.
    fn take_answer(&mut self, frame: &Frame, answer: &Answer)
        requires is { frame.now ≡ AnswerRow answer.now }
        requires few { members_answered self.old + answer.now.members ≤ 2 ^ 50 }
        ensures { self.new ≡ self.old ++ frame.now ∷ [] }
    {
        self.told += answer.members;
        self.frames = self.frames.and(frame);
    }

    /// Takes up a GroupMark.
    fn take_mark(&mut self, frame: &Frame, mark: u64)
        requires is { frame.now ≡ GroupMark mark }
        requires rising { greatest group_mark_of self.old ≤ mark }
        ensures { self.new ≡ self.old ++ frame.now ∷ [] }
    {
        self.mark = mark;
        self.frames = self.frames.and(frame);
    }

    /// Takes up a row of the profile.
    fn take_row(&mut self, frame: &Frame, row: &ProfileRow)
        requires is { frame.now ≡ Profile row.now }
        requires rising { AllByRecursion (IsAfterRow row.now) self.old }
        ensures { self.new ≡ self.old ++ frame.now ∷ [] }
    {
        self.last = Some(RowPair {
            from: row.from,
            to: row.to,
        });
        self.frames = self.frames.and(frame);
    }

    /// Takes up the link's end.
    fn take_finish(&mut self, frame: &Frame)
        requires is { frame.now ≡ Finish }
        ensures { self.new ≡ self.old ++ frame.now ∷ [] }
    {
        self.finished = true;
        self.frames = self.frames.and(frame);
    }
}
