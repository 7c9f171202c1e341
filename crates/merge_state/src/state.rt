//! Where counts and answers come in, and lines go out.
ghost use Rattle.std.specs.Prelude.{ℕ, List, [], ◌++◌, ◌≡◌, ◌<◌, ◌≤◌, ◌+◌, ◌^◌, ◌↔◌, true, false, OnErr, OnOk, IfOk, None, Some, get_or, length, replicate, slice_get, slice_set};
ghost use Rattle.ds_base.specs.Fronts.{upto};
ghost use Rattle.node_frames.specs.declared.frame.Frame.{Frame as FrameSeen};
ghost use Rattle.node_frames.specs.declared.frame.Frame.TheVariants.{AnswerRow, CountsRow, Finish, GroupMark, Profile as ProfileFrame};
ghost use Rattle.profiles.specs.Rows.{IsSound, count_of};
ghost use Rattle.summary_spec.specs.Declaration.{Declared};
ghost use Rattle.summary_spec.specs.Job.{declared_of};
ghost use Rattle.summary_spec.specs.Lawful.{IsLawful};
ghost use Rattle.watermarks.specs.Least.{least_mark, under};
ghost use Rattle.run_law.specs.Shapes.{Shape};
ghost use Rattle.merge_state.specs.Promised.{NoneIsDue, Pushes, lines_left};
ghost use Rattle.merge_state.specs.States.{CanTakeAnswers, CanTakeCounts, StandsFor, TakesAnswers, TakesCounts, state_is};
ghost use Rattle.merge_state.specs.declared.stage.Stage.TheVariants.{Answers, Captures, Ended, Rows};

use crate::answer_queue::AnswerQueue;
use crate::stage::Stage;
use answer_text::{push_answer_line, push_capture_line, push_end_line, push_profile_line};
use ds_base::{Answer, Counts, OutOfMemory, ProfileRow, Text};
use node_frames::Frame;
use profiles::Profile;
use std::alloc::Global;
use summary_spec::Job;
use watermarks::Marks;

/// What the merge keeps between frames.
#[derive(Drop)]
pub struct MergeState {
    /// The answers whose lines were not pushed.
    waiting: AnswerQueue,
    /// The last mark of each processor, until it has finished.
    marks: Marks,
    /// The rows of all processors, added up.
    profile: Profile,
    /// How the records of each capture fared, where its row came.
    counts: Vec<Option<Counts>>,
    /// How many answers' lines were pushed.
    groups: u64,
    /// What is pushed next.
    stage: Stage,
}

impl MergeState {
    /// Nothing was taken, and nothing pushed. It is refused for want of memory alone.
    pub fn new(alloc: Global, job: &Job, processors: u32) -> Result<Self, OutOfMemory>
        requires { processors ≤ 16 }
        ensures { IfOk result (λ d. (shape : Shape) → 0 < shape.parsers → shape.processors ≡ processors
            → state_is (declared_of job.now) shape (λ parser. []) (λ processor. []) [] d) }
    {
        let counts = no_counts(alloc, job)?;
        Ok(MergeState {
            waiting: AnswerQueue::new(alloc),
            marks: Marks::new(processors),
            profile: Profile::new(alloc),
            counts,
            groups: 0,
            stage: Stage::Answers,
        })
    }

    /// A frame of a parser was taken that may stand where it stands: the counts of a capture, or the end.
    pub fn take_counts(&mut self, frame: &Frame)
        requires { CanTakeCounts self.old frame.now }
        ensures { (job : Declared) (shape : Shape) (counts more taken : ℕ → List FrameSeen) (gained : List ℕ) (parser : ℕ) → state_is job shape counts taken gained self.old
            → TakesCounts job shape counts more parser frame.now → state_is job shape more taken gained self.new }
    {
        match frame {
            Frame::CountsRow { capture, counts } => self.take_row_of(*capture, counts),
            // The end tells nothing.
            Frame::Finish => {}
            // No other frame may stand on a link from a parser.
            _ => {}
        }
    }

    /// The counts of a capture were taken.
    fn take_row_of(&mut self, capture: u32, counts: &Counts)
        requires { CanTakeCounts self.old (CountsRow capture counts.now) }
        ensures { (job : Declared) (shape : Shape) (olds more taken : ℕ → List FrameSeen) (gained : List ℕ) (parser : ℕ) → state_is job shape olds taken gained self.old
            → TakesCounts job shape olds more parser (CountsRow capture counts.now) → state_is job shape more taken gained self.new }
    {
        put_counts(&mut self.counts, capture, counts);
    }

    /// A frame of a processor was taken that may stand where it stands. It is refused for want of memory
    /// alone, and the state is of no use then.
    pub fn take_answers(&mut self, processor: u32, frame: &Frame) -> Result<(), OutOfMemory>
        requires { CanTakeAnswers self.old processor frame.now }
        ensures { OnOk result ((job : Declared) (shape : Shape) (counts taken more : ℕ → List FrameSeen) (gained : List ℕ) → state_is job shape counts taken gained self.old
            → TakesAnswers job shape taken more processor frame.now → state_is job shape counts more gained self.new) }
    {
        match frame {
            Frame::AnswerRow(answer) => self.take_answer(answer),
            Frame::GroupMark { mark } => {
                self.take_mark(processor, *mark);
                Ok(())
            }
            Frame::Profile(row) => self.take_row(row),
            Frame::Finish => {
                self.take_end(processor);
                Ok(())
            }
            // No other frame may stand on a link from a processor.
            _ => Ok(()),
        }
    }

    /// An answer was taken.
    fn take_answer(&mut self, answer: &Answer) -> Result<(), OutOfMemory>
        ensures { OnOk result ((job : Declared) (shape : Shape) (counts taken more : ℕ → List FrameSeen) (gained : List ℕ) (processor : ℕ) → state_is job shape counts taken gained self.old
            → TakesAnswers job shape taken more processor (AnswerRow answer.now) → state_is job shape counts more gained self.new) }
    {
        self.waiting.add(answer)
    }

    /// A mark was taken.
    fn take_mark(&mut self, processor: u32, mark: u64)
        requires { processor < length self.old.marks }
        ensures { (job : Declared) (shape : Shape) (counts taken more : ℕ → List FrameSeen) (gained : List ℕ) → state_is job shape counts taken gained self.old
            → TakesAnswers job shape taken more processor (GroupMark mark) → state_is job shape counts more gained self.new }
    {
        self.marks.raise(processor, mark);
    }

    /// A row of the profile was taken.
    fn take_row(&mut self, row: &ProfileRow) -> Result<(), OutOfMemory>
        requires { (processor : ℕ) × CanTakeAnswers self.old processor (ProfileFrame row.now) }
        ensures { OnOk result ((job : Declared) (shape : Shape) (counts taken more : ℕ → List FrameSeen) (gained : List ℕ) (processor : ℕ) → state_is job shape counts taken gained self.old
            → TakesAnswers job shape taken more processor (ProfileFrame row.now) → state_is job shape counts more gained self.new) }
    {
        show_width(&row.classes);
        self.profile.add_row(row)
    }

    /// The end of a link was taken.
    fn take_end(&mut self, processor: u32)
        requires { processor < length self.old.marks }
        ensures { (job : Declared) (shape : Shape) (counts taken more : ℕ → List FrameSeen) (gained : List ℕ) → state_is job shape counts taken gained self.old
            → TakesAnswers job shape taken more processor Finish → state_is job shape counts more gained self.new }
    {
        self.marks.end(processor);
    }

    /// Puts the next line that is due at the end of a text: true exactly where there was one. It is refused
    /// for want of memory alone; then the text is as it was, and the state is of no use.
    pub fn push_due(&mut self, job: &Job, text: &mut Text) -> Result<bool, OutOfMemory>
        requires { StandsFor (declared_of job.now) self.old }
        ensures pushes { OnOk result (Pushes (declared_of job.now) self.old self.new text.old.items text.new.items) }
        ensures all { IfOk result (λ pushed. pushed ≡ false → NoneIsDue (declared_of job.now) self.new) }
        ensures fewer { IfOk result (λ pushed. pushed ≡ true → lines_left self.new < lines_left self.old) }
        ensures refused { OnErr result (text.new.items ≡ text.old.items) }
    {
        match self.stage {
            Stage::Answers => self.push_answer(job, text),
            Stage::Rows { next } => self.push_row(job, text, next),
            Stage::Captures { next, summaries } => self.push_capture(job, text, next, summaries),
            Stage::Ended => Ok(false),
        }
    }

    /// The next answer; behind the last one of all processors what comes then.
    fn push_answer(&mut self, job: &Job, text: &mut Text) -> Result<bool, OutOfMemory>
        requires stage { self.old.stage ≡ Answers }
        requires stands { StandsFor (declared_of job.now) self.old }
        ensures pushes { OnOk result (Pushes (declared_of job.now) self.old self.new text.old.items text.new.items) }
        ensures all { IfOk result (λ pushed. pushed ≡ false → NoneIsDue (declared_of job.now) self.new) }
        ensures fewer { IfOk result (λ pushed. pushed ≡ true → lines_left self.new < lines_left self.old) }
        ensures refused { OnErr result (text.new.items ≡ text.old.items) }
    {
        if self.push_first(job, text)? {
            return Ok(true);
        }
        if !self.has_all_answers() {
            return Ok(false);
        }
        self.stage = Stage::Rows { next: 0 };
        self.push_row(job, text, 0)
    }

    /// The first answer that waits, where it is below the least mark.
    fn push_first(&mut self, job: &Job, text: &mut Text) -> Result<bool, OutOfMemory>
        requires stage { self.old.stage ≡ Answers }
        requires stands { StandsFor (declared_of job.now) self.old }
        ensures pushes { IfOk result (λ pushed. pushed ≡ true → Pushes (declared_of job.now) self.old self.new text.old.items text.new.items) }
        ensures none { IfOk result (λ pushed. pushed ≡ false → upto (λ a. under (least_mark self.old.marks) a.first.time) self.old.waiting ≡ []) }
        ensures same { IfOk result (λ pushed. pushed ≡ false → (self.new ≡ self.old) × (text.new.items ≡ text.old.items)) }
        ensures fewer { IfOk result (λ pushed. pushed ≡ true → lines_left self.new < lines_left self.old) }
        ensures refused { OnErr result (text.new.items ≡ text.old.items) }
    {
        let Some(answer) = self.waiting.first() else {
            return Ok(false);
        };
        if !is_under(self.marks.least(), answer.first.time) {
            return Ok(false);
        }
        push_answer_line(text, &job.names, answer)?;
        self.waiting.pop();
        self.groups += 1;
        Ok(true)
    }

    /// Whether every processor has finished, and no answer waits.
    fn has_all_answers(&self) -> bool
        ensures { result ≡ true ↔ ((least_mark self.now.marks ≡ None) × (self.now.waiting ≡ [])) }
    {
        self.marks.least().is_none() && self.waiting.first().is_none()
    }

    /// The next row of the profile; behind the last one what comes then.
    fn push_row(&mut self, job: &Job, text: &mut Text, next: u32) -> Result<bool, OutOfMemory>
        requires stage { self.old.stage ≡ Rows next }
        requires stands { StandsFor (declared_of job.now) self.old }
        ensures pushes { OnOk result (Pushes (declared_of job.now) self.old self.new text.old.items text.new.items) }
        ensures all { IfOk result (λ pushed. pushed ≡ false → NoneIsDue (declared_of job.now) self.new) }
        ensures fewer { IfOk result (λ pushed. pushed ≡ true → lines_left self.new < lines_left self.old) }
        ensures refused { OnErr result (text.new.items ≡ text.old.items) }
    {
        let _ = self.profile.len();
        match self.profile.row(next) {
            Some(row) => {
                push_profile_line(text, &job.names, &row)?;
                self.stage = Stage::Rows { next: next + 1 };
                Ok(true)
            }
            None => {
                self.stage = Stage::Captures {
                    next: 0,
                    summaries: 0,
                };
                self.push_capture(job, text, 0, 0)
            }
        }
    }

    /// The next capture, once its counts came; behind the last one the last line.
    fn push_capture(
        &mut self,
        job: &Job,
        text: &mut Text,
        next: u32,
        summaries: u64,
    ) -> Result<bool, OutOfMemory>
        requires stage { self.old.stage ≡ Captures next summaries }
        requires stands { StandsFor (declared_of job.now) self.old }
        ensures pushes { OnOk result (Pushes (declared_of job.now) self.old self.new text.old.items text.new.items) }
        ensures all { IfOk result (λ pushed. pushed ≡ false → NoneIsDue (declared_of job.now) self.new) }
        ensures fewer { IfOk result (λ pushed. pushed ≡ true → lines_left self.new < lines_left self.old) }
        ensures refused { OnErr result (text.new.items ≡ text.old.items) }
    {
        if self.counts.len() <= next as usize {
            push_end_line(text, self.groups, summaries)?;
            self.stage = Stage::Ended;
            return Ok(true);
        }
        match counts_at(&self.counts, next) {
            Some(counts) => {
                push_capture_line(text, &job.names, next, &counts)?;
                self.stage = Stage::Captures {
                    next: next + 1,
                    summaries: summaries + counts.accepted,
                };
                Ok(true)
            }
            // What follows waits for these counts.
            None => Ok(false),
        }
    }
}

/// So many captures as the job has, of which no counts came.
fn no_counts(alloc: Global, job: &Job) -> Result<Vec<Option<Counts>>, OutOfMemory>
    ensures { IfOk result (λ counts. counts.items ≡ replicate (length (declared_of job.now).captures) None) }
{
    let captures = job.offsets.len();
    let Ok(mut counts) = Vec::with_capacity(alloc, captures as usize) else {
        return Err(OutOfMemory);
    };
    for _ in 0..captures {
        counts.push_reserved(None);
    }
    Ok(counts)
}

/// The counts of a capture came.
fn put_counts(all: &mut Vec<Option<Counts>>, capture: u32, counts: &Counts)
    requires { capture < length all.old.items }
    ensures { all.new.items ≡ slice_set all.old.items capture (Some counts.now) }
{
    all[capture as usize] = Some(*counts);
}

/// The counts of a capture, where they came.
fn counts_at(all: &Vec<Option<Counts>>, capture: u32) -> Option<Counts>
    requires { capture < length all.now.items }
    ensures { result ≡ get_or all.now.items capture None }
{
    all[capture as usize]
}

/// Whether a time is below the least mark, or all processors have finished.
fn is_under(least: Option<u64>, time: u64) -> bool
    ensures { result ≡ under least time }
{
    match least {
        Some(mark) => time < mark,
        None => true,
    }
}

/// A reference to an array says how long it is; a row behind a reference does not.
fn show_width(classes: &[u64; 64])
    ensures { length classes.now ≡ 64 }
{}
