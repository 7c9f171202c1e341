//! The frames from a grouper to a processor.
ghost use Rattle.std.specs.Prelude.{◌≡◌, ◌≤◌, ◌+◌, ◌^◌, ◌↔◌, IsTrue, IsFalse, false, [], ◌∷◌, ◌++◌};
ghost use Rattle.std.specs.List.{AllByRecursion, list_any};
ghost use Rattle.node_frames.specs.declared.frame.Frame.TheVariants.{GroupHead, Member, GroupMark, Finish};
ghost use Rattle.summary_spec.specs.Job.{declared_of};
ghost use Rattle.run_law.specs.Sent.{begun_in};
ghost use Rattle.run_law.specs.Links.{MayFollow, AreLawful, GroupRule, NoneBegun, IsNextMember, IsHead, members_announced};
ghost use Rattle.frame_order.specs.Groups.{HeadFits, GroupMarkFits, IsAfterHead, IsNextIn};
ghost use Rattle.frame_order.specs.Said.{greatest, group_mark_of, is_profile, is_finish};

use crate::numbers::{is_time, is_within_sum};
use crate::of_job::{is_stamp_of, key_count};
use crate::open_group::{OpenGroup, may_join, precedes};
use ds_base::{Nums, Stamp};
use ghost_list::GhostList;
use node_frames::Frame;
use std::marker::Model;
use summary_spec::Job;

/// What is kept of the frames that came from a grouper, to tell which may follow. Contracts see these
/// frames.
#[derive(Drop)]
pub struct GroupOrder {
    /// The group that was begun last.
    group: OpenGroup,
    /// The last head's stamp, if a head came.
    head: Option<Stamp>,
    /// How many members the heads have announced.
    announced: u64,
    /// The last GroupMark, 0 before the first.
    mark: u64,
    /// Whether the link has ended.
    finished: bool,
    frames: GhostList<Frame>,
}

impl Model for GroupOrder {
    ghost use Rattle.std.specs.Prelude.{List};
    ghost use Rattle.node_frames.specs.declared.frame.Frame.{Frame};
    ghost use Rattle.frame_order.specs.Groups.{KeepsGroups};

    ghost Value = { List Frame };

    ghost view = { λ o. o.frames.items };

    ghost invariant = { λ o. KeepsGroups o.group o.head o.announced o.mark o.finished o.frames.items };
}

impl GroupOrder {
    /// Before the first frame.
    pub fn new() -> Self
        ensures { result ≡ [] }
    {
        let zero = Stamp {
            time: 0,
            capture: 0,
            number: 0,
        };
        GroupOrder {
            group: OpenGroup {
                first: zero,
                key: Nums::new(),
                last: zero,
                fresh: true,
                left: 0,
            },
            head: None,
            announced: 0,
            mark: 0,
            finished: false,
            frames: GhostList::new(),
        }
    }

    /// Takes the frame up if it may stand behind those before it, and answers whether it may.
    pub fn admit(&mut self, job: &Job, frame: &Frame) -> bool
        ensures exact { IsTrue result ↔ MayFollow (GroupRule (declared_of job.now)) self.old frame.now }
        ensures lawful { IsTrue result → AreLawful (GroupRule (declared_of job.now)) self.old → AreLawful (GroupRule (declared_of job.now)) self.new }
        ensures takes { IsTrue result → self.new ≡ self.old ++ frame.now ∷ [] }
        ensures refuses { IsFalse result → self.new ≡ self.old }
    {
        self.decide(job, frame)
    }

    /// The same, kind by kind.
    fn decide(&mut self, job: &Job, frame: &Frame) -> bool
        ensures exact { IsTrue result ↔ MayFollow (GroupRule (declared_of job.now)) self.old frame.now }
        ensures takes { IsTrue result → self.new ≡ self.old ++ frame.now ∷ [] }
        ensures refuses { IsFalse result → self.new ≡ self.old }
    {
        match frame {
            Frame::GroupHead {
                first,
                members,
                key,
            } => self.admit_head(job, frame, first, *members, key),
            Frame::Member { at, vals } => self.admit_member(job, frame, at, vals),
            Frame::GroupMark { mark } => self.admit_mark(job, frame, *mark),
            Frame::Finish => self.admit_finish(job, frame),
            _ => false,
        }
    }

    /// Takes a group's head up if it may follow.
    fn admit_head(
        &mut self,
        job: &Job,
        frame: &Frame,
        first: &Stamp,
        members: u64,
        key: &Nums,
    ) -> bool
        requires { frame.now ≡ GroupHead first.now members key.now }
        ensures exact { IsTrue result ↔ MayFollow (GroupRule (declared_of job.now)) self.old (GroupHead first.now members key.now) }
        ensures takes { IsTrue result → self.new ≡ self.old ++ frame.now ∷ [] }
        ensures refuses { IsFalse result → self.new ≡ self.old }
    {
        if !self.has_none_begun() {
            return false;
        }
        if !self.is_head(job, first, members, key) {
            return false;
        }
        if !self.fits_head(first) {
            return false;
        }
        self.take_head(frame, first, members, key);
        true
    }

    /// Takes a member up if it may follow.
    fn admit_member(&mut self, job: &Job, frame: &Frame, at: &Stamp, vals: &Nums) -> bool
        requires { frame.now ≡ Member at.now vals.now }
        ensures exact { IsTrue result ↔ MayFollow (GroupRule (declared_of job.now)) self.old (Member at.now vals.now) }
        ensures takes { IsTrue result → self.new ≡ self.old ++ frame.now ∷ [] }
        ensures refuses { IsFalse result → self.new ≡ self.old }
    {
        if !self.is_member(job, at, vals) {
            return false;
        }
        if self.is_finished() {
            return false;
        }
        self.take_member(frame, at, vals);
        true
    }

    /// Takes a GroupMark up if it may follow.
    fn admit_mark(&mut self, job: &Job, frame: &Frame, mark: u64) -> bool
        requires { frame.now ≡ GroupMark mark }
        ensures exact { IsTrue result ↔ MayFollow (GroupRule (declared_of job.now)) self.old (GroupMark mark) }
        ensures takes { IsTrue result → self.new ≡ self.old ++ frame.now ∷ [] }
        ensures refuses { IsFalse result → self.new ≡ self.old }
    {
        if !self.has_none_begun() || !is_time(mark) {
            return false;
        }
        if !self.fits_mark(mark) {
            return false;
        }
        self.take_mark(frame, mark);
        true
    }

    /// Takes the link's end up if it may follow.
    fn admit_finish(&mut self, job: &Job, frame: &Frame) -> bool
        requires { frame.now ≡ Finish }
        ensures exact { IsTrue result ↔ MayFollow (GroupRule (declared_of job.now)) self.old Finish }
        ensures takes { IsTrue result → self.new ≡ self.old ++ frame.now ∷ [] }
        ensures refuses { IsFalse result → self.new ≡ self.old }
    {
        if !self.has_none_begun() {
            return false;
        }
        if self.is_finished() {
            return false;
        }
        self.take_finish(frame);
        true
    }

    /// Whether no group is begun.
    fn has_none_begun(&self) -> bool
        ensures { IsTrue result ↔ NoneBegun (begun_in self.now) }
    {
        self.group.left == 0
    }

    /// Whether this can be the next member of the group that is begun.
    fn is_member(&self, job: &Job, at: &Stamp, vals: &Nums) -> bool
        ensures { IsTrue result ↔ IsNextMember (declared_of job.now) (begun_in self.now) at.now vals.now }
    {
        may_join(job, &self.group, at, vals)
    }

    /// Whether the numbers of a head are in their ranges.
    fn is_head(&self, job: &Job, first: &Stamp, members: u64, key: &Nums) -> bool
        ensures { IsTrue result ↔ IsHead (declared_of job.now) self.now first.now members key.now }
    {
        is_stamp_of(job, first)
            && key.len() == key_count(job)
            && members >= 1
            && is_within_sum(self.announced(), members, 1 << 46)
    }

    /// How many members the heads have announced.
    fn announced(&self) -> u64
        ensures { result ≡ members_announced self.now }
    {
        self.announced
    }

    /// Whether no frame before forbids this head.
    fn fits_head(&self, first: &Stamp) -> bool
        ensures { IsTrue result ↔ HeadFits self.now first.now }
    {
        !self.is_finished() && self.mark() <= first.time && self.is_after_head(first)
    }

    /// Whether no frame before forbids this GroupMark.
    fn fits_mark(&self, mark: u64) -> bool
        ensures { IsTrue result ↔ GroupMarkFits self.now mark }
    {
        !self.is_finished() && self.mark() <= mark
    }

    /// Whether all heads before are before this one.
    fn is_after_head(&self, first: &Stamp) -> bool
        ensures { IsTrue result ↔ AllByRecursion (IsAfterHead first.now) self.now }
    {
        match &self.head {
            Some(last) => precedes(last, first),
            None => true,
        }
    }

    /// The last GroupMark, 0 before the first.
    fn mark(&self) -> u64
        ensures { result ≡ greatest group_mark_of self.now }
    {
        self.mark
    }

    /// Whether the link's end came.
    fn is_finished(&self) -> bool
        ensures value { result ≡ list_any is_finish self.now }
        ensures plain { list_any is_profile self.now ≡ false }
    {
        self.finished
    }

    /// Takes up a head.
    fn take_head(&mut self, frame: &Frame, first: &Stamp, members: u64, key: &Nums)
        requires is { frame.now ≡ GroupHead first.now members key.now }
        requires some { 1 ≤ members }
        requires few { members_announced self.old + members ≤ 2 ^ 46 }
        requires rising { AllByRecursion (IsAfterHead first.now) self.old }
        ensures { self.new ≡ self.old ++ frame.now ∷ [] }
    {
        self.group.first = *first;
        self.group.key = *key;
        self.group.fresh = true;
        self.group.left = members;
        self.head = Some(*first);
        self.announced += members;
        self.frames = self.frames.and(frame);
    }

    /// Takes up a member.
    fn take_member(&mut self, frame: &Frame, at: &Stamp, vals: &Nums)
        requires is { frame.now ≡ Member at.now vals.now }
        requires next { IsNextIn (begun_in self.old) at.now }
        ensures { self.new ≡ self.old ++ frame.now ∷ [] }
    {
        let left = self.group.left.saturating_sub(1);
        self.group.last = *at;
        self.group.fresh = false;
        self.group.left = left;
        self.frames = self.frames.and(frame);
    }

    /// Takes up a GroupMark.
    fn take_mark(&mut self, frame: &Frame, mark: u64)
        requires is { frame.now ≡ GroupMark mark }
        requires rising { greatest group_mark_of self.old ≤ mark }
        ensures { self.new ≡ self.old ++ frame.now ∷ [] }
    {
        self.mark = mark;
        self.frames = self.frames.and(frame);
    }

    /// Takes up the link's end.
    fn take_finish(&mut self, frame: &Frame)
        requires is { frame.now ≡ Finish }
        ensures { self.new ≡ self.old ++ frame.now ∷ [] }
    {
        self.finished = true;
        self.frames = self.frames.and(frame);
    }
}
