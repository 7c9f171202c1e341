//! The frames from a parser to a grouper.
ghost use Rattle.std.specs.Prelude.{◌≡◌, ◌<◌, ◌≤◌, ◌%◌, ◌↔◌, ℕ, IsTrue, IsFalse, [], ◌∷◌, ◌++◌, ◌+◌, ◌^◌, length};
ghost use Rattle.std.specs.List.{list_any};
ghost use Rattle.node_frames.specs.declared.frame.Frame.TheVariants.{Item, Mark, CaptureEnd, Finish};
ghost use Rattle.summary_spec.specs.Job.{declared_of};
ghost use Rattle.run_law.specs.Shapes.{Shape};
ghost use Rattle.run_law.specs.Links.{MayFollow, AreLawful, HasEnded, ItemRule, IsItemOf};
ghost use Rattle.frame_order.specs.Items.{IsOf, shape_with, HaveAllEnded, ItemFits, MarkFits, EndFits};
ghost use Rattle.frame_order.specs.Said.{greatest, next_of, mark_of, is_end_of, is_finish};

use crate::item_link::ItemLink;
use crate::numbers::is_time;
use crate::of_job::{capture_count, is_capture_of, is_key_of, is_stamp_of, variable_count};
use crate::slots::{Flags, Numbers};
use ds_base::Summary;
use ghost_list::GhostList;
use key_select::shard;
use node_frames::Frame;
use std::marker::Model;
use summary_spec::Job;

/// What is kept of the frames that came from a parser, to tell which may follow. Contracts see these
/// frames.
#[derive(Drop)]
pub struct ItemOrder {
    /// For each capture the least number that its next Item may have.
    next: Numbers,
    /// The last mark of each capture, 0 before the first.
    marks: Numbers,
    /// Whether each capture has ended.
    ended: Flags,
    /// Whether the link has ended.
    finished: bool,
    frames: GhostList<Frame>,
}

impl Model for ItemOrder {
    ghost use Rattle.std.specs.Prelude.{List};
    ghost use Rattle.node_frames.specs.declared.frame.Frame.{Frame};
    ghost use Rattle.frame_order.specs.Items.{KeepsItems};

    ghost Value = { List Frame };

    ghost view = { λ o. o.frames.items };

    ghost invariant = { λ o. KeepsItems o.next o.marks o.ended o.finished o.frames.items };
}

impl ItemOrder {
    /// Before the first frame.
    pub fn new() -> Self
        ensures { result ≡ [] }
    {
        ItemOrder {
            next: Numbers::new(),
            marks: Numbers::new(),
            ended: Flags::new(),
            finished: false,
            frames: GhostList::new(),
        }
    }

    /// Takes the frame up if it may stand behind those before it, and answers whether it may.
    pub fn admit(&mut self, job: &Job, link: ItemLink, frame: &Frame) -> bool
        requires parsers { 0 < link.parsers }
        requires groupers { 0 < link.groupers }
        ensures exact { (shape : Shape) → IsOf shape link → IsTrue result ↔ MayFollow (ItemRule (declared_of job.now) shape link.parser link.grouper) self.old frame.now }
        ensures lawful { (shape : Shape) → IsOf shape link → IsTrue result → AreLawful (ItemRule (declared_of job.now) shape link.parser link.grouper) self.old → AreLawful (ItemRule (declared_of job.now) shape link.parser link.grouper) self.new }
        ensures takes { IsTrue result → self.new ≡ self.old ++ frame.now ∷ [] }
        ensures refuses { IsFalse result → self.new ≡ self.old }
    {
        self.decide(job, link, frame)
    }

    /// The same, of a pipeline without processors, since no rule here asks for their number.
    fn decide(&mut self, job: &Job, link: ItemLink, frame: &Frame) -> bool
        requires parsers { 0 < link.parsers }
        requires groupers { 0 < link.groupers }
        ensures exact { IsTrue result ↔ MayFollow (ItemRule (declared_of job.now) (shape_with link) link.parser link.grouper) self.old frame.now }
        ensures takes { IsTrue result → self.new ≡ self.old ++ frame.now ∷ [] }
        ensures refuses { IsFalse result → self.new ≡ self.old }
    {
        match frame {
            Frame::Item(s) => self.admit_item(job, link, frame, s),
            Frame::Mark { capture, mark } => self.admit_mark(job, link, frame, *capture, *mark),
            Frame::CaptureEnd { capture } => self.admit_end(job, link, frame, *capture),
            Frame::Finish => self.admit_finish(job, link, frame),
            _ => false,
        }
    }

    /// Takes an Item up if it may follow.
    #[tactic(auto, using(crate::proofs::Items::item_permitted, crate::proofs::Items::item_fitting))]
    fn admit_item(&mut self, job: &Job, link: ItemLink, frame: &Frame, s: &Summary) -> bool
        requires parsers { 0 < link.parsers }
        requires groupers { 0 < link.groupers }
        requires is { frame.now ≡ Item s.now }
        ensures exact { IsTrue result ↔ MayFollow (ItemRule (declared_of job.now) (shape_with link) link.parser link.grouper) self.old (Item s.now) }
        ensures takes { IsTrue result → self.new ≡ self.old ++ frame.now ∷ [] }
        ensures refuses { IsFalse result → self.new ≡ self.old }
    {
        if !is_item_of(job, link, s) {
            return false;
        }
        if !self.fits_item(s) {
            return false;
        }
        self.take_item(frame, s);
        true
    }

    /// Takes a Mark up if it may follow.
    #[tactic(auto, using(crate::proofs::Items::mark_permitted, crate::proofs::Items::mark_fitting))]
    fn admit_mark(&mut self, job: &Job, link: ItemLink, frame: &Frame, c: u32, mark: u64) -> bool
        requires parsers { 0 < link.parsers }
        requires is { frame.now ≡ Mark c mark }
        ensures exact { IsTrue result ↔ MayFollow (ItemRule (declared_of job.now) (shape_with link) link.parser link.grouper) self.old (Mark c mark) }
        ensures takes { IsTrue result → self.new ≡ self.old ++ frame.now ∷ [] }
        ensures refuses { IsFalse result → self.new ≡ self.old }
    {
        if !is_capture_of(job, link.parsers, link.parser, c) || !is_time(mark) {
            return false;
        }
        if !self.fits_mark(c, mark) {
            return false;
        }
        self.take_mark(frame, c, mark);
        true
    }

    /// Takes the end of a capture up if it may follow.
    #[tactic(auto, using(crate::proofs::Items::end_permitted, crate::proofs::Items::end_fitting))]
    fn admit_end(&mut self, job: &Job, link: ItemLink, frame: &Frame, c: u32) -> bool
        requires parsers { 0 < link.parsers }
        requires is { frame.now ≡ CaptureEnd c }
        ensures exact { IsTrue result ↔ MayFollow (ItemRule (declared_of job.now) (shape_with link) link.parser link.grouper) self.old (CaptureEnd c) }
        ensures takes { IsTrue result → self.new ≡ self.old ++ frame.now ∷ [] }
        ensures refuses { IsFalse result → self.new ≡ self.old }
    {
        if !is_capture_of(job, link.parsers, link.parser, c) {
            return false;
        }
        if !self.fits_end(c) {
            return false;
        }
        self.take_end(frame, c);
        true
    }

    /// Takes the link's end up if it may follow.
    #[tactic(auto, using(crate::proofs::Items::finish_permitted, crate::proofs::Items::finish_fitting))]
    fn admit_finish(&mut self, job: &Job, link: ItemLink, frame: &Frame) -> bool
        requires parsers { 0 < link.parsers }
        requires is { frame.now ≡ Finish }
        ensures exact { IsTrue result ↔ MayFollow (ItemRule (declared_of job.now) (shape_with link) link.parser link.grouper) self.old Finish }
        ensures takes { IsTrue result → self.new ≡ self.old ++ frame.now ∷ [] }
        ensures refuses { IsFalse result → self.new ≡ self.old }
    {
        if !self.have_all_ended(job, link.parsers, link.parser) {
            return false;
        }
        if self.is_finished() {
            return false;
        }
        self.take_finish(frame);
        true
    }

    /// Whether all captures of the parser have ended.
    fn have_all_ended(&self, job: &Job, parsers: u32, parser: u32) -> bool
        requires { 0 < parsers }
        ensures { IsTrue result ↔ HaveAllEnded (length (declared_of job.now).captures) parsers parser self.now }
    {
        for c in 0..capture_count(job) {
            if self.lacks(parsers, parser, c) {
                return false;
            }
        }
        true
    }

    /// Whether the capture is one of the parser's, and its end did not come.
    fn lacks(&self, parsers: u32, parser: u32, c: u32) -> bool
        requires parsers { 0 < parsers }
        requires capture { c < 64 }
        ensures yes { IsTrue result → (c % parsers ≡ parser) × ¬ HasEnded c self.now }
        ensures no { IsFalse result → c % parsers ≡ parser → HasEnded c self.now }
    {
        c % parsers == parser && !self.has_ended(c)
    }

    /// Whether no frame before forbids this Item.
    fn fits_item(&self, s: &Summary) -> bool
        requires { s.now.at.capture < 64 }
        ensures { IsTrue result ↔ ItemFits self.now s.now }
    {
        let c = s.at.capture;
        !self.is_finished()
            && !self.has_ended(c)
            && self.next(c) <= s.at.number
            && self.mark(c) <= s.at.time
    }

    /// Whether no frame before forbids this Mark.
    fn fits_mark(&self, c: u32, mark: u64) -> bool
        requires { c < 64 }
        ensures { IsTrue result ↔ MarkFits self.now c mark }
    {
        !self.is_finished() && !self.has_ended(c) && self.mark(c) <= mark
    }

    /// Whether no frame before forbids the end of this capture.
    fn fits_end(&self, c: u32) -> bool
        requires { c < 64 }
        ensures { IsTrue result ↔ EndFits self.now c }
    {
        !self.is_finished() && !self.has_ended(c)
    }

    /// Whether the link's end came.
    fn is_finished(&self) -> bool
        ensures { result ≡ list_any is_finish self.now }
    {
        self.finished
    }

    /// Whether the end of the capture came.
    fn has_ended(&self, c: u32) -> bool
        requires { c < 64 }
        ensures value { result ≡ list_any (is_end_of c) self.now }
        ensures came { IsTrue result ↔ HasEnded c self.now }
    {
        self.ended.get(c)
    }

    /// The least number that the next Item of the capture may have.
    fn next(&self, c: u32) -> u64
        requires { c < 64 }
        ensures { result ≡ greatest (next_of c) self.now }
    {
        self.next.get(c)
    }

    /// The last mark of the capture, 0 before the first.
    fn mark(&self, c: u32) -> u64
        requires { c < 64 }
        ensures { result ≡ greatest (mark_of c) self.now }
    {
        self.marks.get(c)
    }

    /// Takes up an Item.
    fn take_item(&mut self, frame: &Frame, s: &Summary)
        requires is { frame.now ≡ Item s.now }
        requires capture { s.now.at.capture < 64 }
        requires few { s.now.at.number < 2 ^ 40 }
        requires later { greatest (next_of s.now.at.capture) self.old ≤ s.now.at.number }
        ensures { self.new ≡ self.old ++ frame.now ∷ [] }
    {
        self.next.set(s.at.capture, s.at.number + 1);
        self.frames = self.frames.and(frame);
    }

    /// Takes up a Mark.
    fn take_mark(&mut self, frame: &Frame, c: u32, mark: u64)
        requires is { frame.now ≡ Mark c mark }
        requires capture { c < 64 }
        requires rising { greatest (mark_of c) self.old ≤ mark }
        ensures { self.new ≡ self.old ++ frame.now ∷ [] }
    {
        self.marks.set(c, mark);
        self.frames = self.frames.and(frame);
    }

    /// Takes up the end of a capture.
    fn take_end(&mut self, frame: &Frame, c: u32)
        requires is { frame.now ≡ CaptureEnd c }
        requires capture { c < 64 }
        ensures { self.new ≡ self.old ++ frame.now ∷ [] }
    {
        self.ended.set(c);
        self.frames = self.frames.and(frame);
    }

    /// Takes up the link's end.
    fn take_finish(&mut self, frame: &Frame)
        requires is { frame.now ≡ Finish }
        ensures { self.new ≡ self.old ++ frame.now ∷ [] }
    {
        self.finished = true;
        self.frames = self.frames.and(frame);
    }
}

/// Whether the Item is one of this link.
fn is_item_of(job: &Job, link: ItemLink, s: &Summary) -> bool
    requires parsers { 0 < link.parsers }
    requires groupers { 0 < link.groupers }
    ensures exact { IsTrue result ↔ IsItemOf (declared_of job.now) (shape_with link) link.parser link.grouper s.now }
    ensures capture { IsTrue result → s.now.at.capture < 64 }
    ensures few { IsTrue result → s.now.at.number < 2 ^ 40 }
{
    is_stamp_of(job, &s.at)
        && is_capture_of(job, link.parsers, link.parser, s.at.capture)
        && s.vals.len() == variable_count(job)
        && is_key_of(job, &s.key, &s.vals)
        && shard(&s.key, link.groupers) == link.grouper
}
