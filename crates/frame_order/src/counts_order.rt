//! The frames from a parser to the merge.
ghost use Rattle.std.specs.Prelude.{◌≡◌, ◌<◌, ◌%◌, ◌↔◌, IsTrue, IsFalse, [], ◌∷◌, ◌++◌, length};
ghost use Rattle.std.specs.List.{list_any};
ghost use Rattle.node_frames.specs.declared.frame.Frame.TheVariants.{CountsRow, Finish};
ghost use Rattle.summary_spec.specs.Job.{declared_of};
ghost use Rattle.run_law.specs.Shapes.{Shape};
ghost use Rattle.run_law.specs.Links.{MayFollow, AreLawful, HasRow, CountsRule};
ghost use Rattle.frame_order.specs.Rows.{shape_of, HaveAllRows, RowFits};
ghost use Rattle.frame_order.specs.Said.{is_row_of, is_finish};

use crate::numbers::are_counts;
use crate::of_job::{capture_count, is_capture_of};
use crate::slots::Flags;
use ds_base::Counts;
use ghost_list::GhostList;
use node_frames::Frame;
use std::marker::Model;
use summary_spec::Job;

/// What is kept of the frames that came from a parser to the merge, to tell which may follow. Contracts
/// see these frames.
#[derive(Drop)]
pub struct CountsOrder {
    /// Whether the row of each capture came.
    rows: Flags,
    /// Whether the link has ended.
    finished: bool,
    frames: GhostList<Frame>,
}

impl Model for CountsOrder {
    ghost use Rattle.std.specs.Prelude.{List};
    ghost use Rattle.node_frames.specs.declared.frame.Frame.{Frame};
    ghost use Rattle.frame_order.specs.Rows.{KeepsRows};

    ghost Value = { List Frame };

    ghost view = { λ o. o.frames.items };

    ghost invariant = { λ o. KeepsRows o.rows o.finished o.frames.items };
}

impl CountsOrder {
    /// Before the first frame.
    pub fn new() -> Self
        ensures { result ≡ [] }
    {
        CountsOrder {
            rows: Flags::new(),
            finished: false,
            frames: GhostList::new(),
        }
    }

    /// Takes the frame of this parser among so many up if it may stand behind those before it, and answers
    /// whether it may.
    pub fn admit(&mut self, job: &Job, parsers: u32, parser: u32, frame: &Frame) -> bool
        requires { 0 < parsers }
        ensures exact { (shape : Shape) → shape.parsers ≡ parsers → IsTrue result ↔ MayFollow (CountsRule (declared_of job.now) shape parser) self.old frame.now }
        ensures lawful { (shape : Shape) → shape.parsers ≡ parsers → IsTrue result → AreLawful (CountsRule (declared_of job.now) shape parser) self.old → AreLawful (CountsRule (declared_of job.now) shape parser) self.new }
        ensures takes { IsTrue result → self.new ≡ self.old ++ frame.now ∷ [] }
        ensures refuses { IsFalse result → self.new ≡ self.old }
    {
        self.decide(job, parsers, parser, frame)
    }

    /// The same, of a pipeline without other nodes, since no rule here asks for their numbers.
    fn decide(&mut self, job: &Job, parsers: u32, parser: u32, frame: &Frame) -> bool
        requires { 0 < parsers }
        ensures exact { IsTrue result ↔ MayFollow (CountsRule (declared_of job.now) (shape_of parsers) parser) self.old frame.now }
        ensures takes { IsTrue result → self.new ≡ self.old ++ frame.now ∷ [] }
        ensures refuses { IsFalse result → self.new ≡ self.old }
    {
        match frame {
            Frame::CountsRow { capture, counts } => {
                self.admit_row(job, parsers, parser, frame, *capture, counts)
            }
            Frame::Finish => self.admit_finish(job, parsers, parser, frame),
            _ => false,
        }
    }

    /// Takes a capture's row up if it may follow.
    fn admit_row(
        &mut self,
        job: &Job,
        parsers: u32,
        parser: u32,
        frame: &Frame,
        c: u32,
        counts: &Counts,
    ) -> bool
        requires parsers { 0 < parsers }
        requires is { frame.now ≡ CountsRow c counts.now }
        ensures exact { IsTrue result ↔ MayFollow (CountsRule (declared_of job.now) (shape_of parsers) parser) self.old (CountsRow c counts.now) }
        ensures takes { IsTrue result → self.new ≡ self.old ++ frame.now ∷ [] }
        ensures refuses { IsFalse result → self.new ≡ self.old }
    {
        if !is_capture_of(job, parsers, parser, c) || !are_counts(counts) {
            return false;
        }
        if !self.fits_row(c) {
            return false;
        }
        self.take_row(frame, c, counts);
        true
    }

    /// Takes the link's end up if it may follow.
    #[tactic(auto, using(crate::proofs::Items::finish_permitted, crate::proofs::Items::finish_fitting))]
    fn admit_finish(&mut self, job: &Job, parsers: u32, parser: u32, frame: &Frame) -> bool
        requires parsers { 0 < parsers }
        requires is { frame.now ≡ Finish }
        ensures exact { IsTrue result ↔ MayFollow (CountsRule (declared_of job.now) (shape_of parsers) parser) self.old Finish }
        ensures takes { IsTrue result → self.new ≡ self.old ++ frame.now ∷ [] }
        ensures refuses { IsFalse result → self.new ≡ self.old }
    {
        if !self.have_all_rows(job, parsers, parser) {
            return false;
        }
        if self.is_finished() {
            return false;
        }
        self.take_finish(frame);
        true
    }

    /// Whether the rows of all captures of the parser came.
    fn have_all_rows(&self, job: &Job, parsers: u32, parser: u32) -> bool
        requires { 0 < parsers }
        ensures { IsTrue result ↔ HaveAllRows (length (declared_of job.now).captures) parsers parser self.now }
    {
        for c in 0..capture_count(job) {
            if self.lacks(parsers, parser, c) {
                return false;
            }
        }
        true
    }

    /// Whether the capture is one of the parser's, and its row did not come.
    fn lacks(&self, parsers: u32, parser: u32, c: u32) -> bool
        requires parsers { 0 < parsers }
        requires capture { c < 64 }
        ensures yes { IsTrue result → (c % parsers ≡ parser) × ¬ HasRow c self.now }
        ensures no { IsFalse result → c % parsers ≡ parser → HasRow c self.now }
    {
        c % parsers == parser && !self.has_row(c)
    }

    /// Whether no frame before forbids the row of this capture.
    fn fits_row(&self, c: u32) -> bool
        requires { c < 64 }
        ensures { IsTrue result ↔ RowFits self.now c }
    {
        !self.is_finished() && !self.has_row(c)
    }

    /// Whether the row of the capture came.
    fn has_row(&self, c: u32) -> bool
        requires { c < 64 }
        ensures value { result ≡ list_any (is_row_of c) self.now }
        ensures came { IsTrue result ↔ HasRow c self.now }
    {
        self.rows.get(c)
    }

    /// Whether the link's end came.
    fn is_finished(&self) -> bool
        ensures { result ≡ list_any is_finish self.now }
    {
        self.finished
    }

    /// Takes up the row of a capture.
    fn take_row(&mut self, frame: &Frame, c: u32, counts: &Counts)
        requires is { frame.now ≡ CountsRow c counts.now }
        requires capture { c < 64 }
        ensures { self.new ≡ self.old ++ frame.now ∷ [] }
    {
        self.rows.set(c);
        self.frames = self.frames.and(frame);
    }

    /// Takes up the link's end.
    fn take_finish(&mut self, frame: &Frame)
        requires is { frame.now ≡ Finish }
        ensures { self.new ≡ self.old ++ frame.now ∷ [] }
    {
        self.finished = true;
        self.frames = self.frames.and(frame);
    }
}
