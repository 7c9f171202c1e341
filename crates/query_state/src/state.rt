//! Where groups come in and answers go out, whatever the links are.
ghost use Rattle.std.specs.Prelude.{ℕ, List, [], ◌∷◌, ◌++◌, ◌≡◌, ◌<◌, ◌≤◌, ◌+◌, ◌==◌, ◌^◌, true, false, OnOk, IfOk, IsNone, None, Some, length, map, replicate, option_to_list, slice_index_or, slice_set};
ghost use Rattle.central_report.specs.Answering.{IsAnswerable};
ghost use Rattle.credit_link.specs.Frames.{has_finish};
ghost use Rattle.ds_base.specs.Copies.{copies_of};
ghost use Rattle.node_frames.specs.declared.frame.Frame.{Frame as FrameSeen};
ghost use Rattle.node_frames.specs.declared.frame.Frame.TheVariants.{GroupHead, Member, GroupMark, Finish};
ghost use Rattle.profiles.specs.Delays.{delays, times_between};
ghost use Rattle.profiles.specs.Rows.{count_of};
ghost use Rattle.summary_spec.specs.Declaration.{Declared};
ghost use Rattle.summary_spec.specs.Job.{declared_of};
ghost use Rattle.summary_spec.specs.Lawful.{IsLawful};
ghost use Rattle.watermarks.specs.Least.{least_mark};
ghost use Rattle.run_law.specs.Nodes.{answer_of, least_of_links};
ghost use Rattle.run_law.specs.Sent.{with_member};
ghost use Rattle.query_state.specs.States.{AddsGroup, CanTake, MayTake, answer_frames, state_is, is_mark_due, taken_more, taken_on};
ghost use Rattle.query_state.specs.Takings.{begun_taking, copies_taken, new_taking};

use crate::taking::Taking;
use ds_base::{Answer, Group, Nums, OutOfMemory, Stamp};
use node_frames::Frame;
use profiles::Profile;
use std::alloc::Global;
use summary_spec::Job;
use watermarks::Marks;

/// What a processor keeps between frames.
#[derive(Drop)]
pub struct QueryState {
    /// The group that is being taken on each link.
    lanes: Vec<Taking>,
    /// The last mark of each link, until it has finished.
    marks: Marks,
    /// The delays of the groups answered, where the job asks for them.
    profile: Profile,
    /// The last mark that was put, 0 before the first.
    mark: u64,
    /// How many rows of the profile were put.
    next: u32,
    /// Whether the end was put.
    finished: bool,
}

impl QueryState {
    /// Nothing was taken, and nothing put. It is refused for want of memory alone.
    pub fn new(alloc: Global, links: u32) -> Result<Self, OutOfMemory>
        requires { links ≤ 16 }
        ensures { IfOk result (λ d. (job : Declared) → IsLawful job → state_is job (replicate links []) [] d) }
    {
        let lanes = empty_lanes(alloc, links)?;
        Ok(QueryState {
            lanes,
            marks: Marks::new(links),
            profile: Profile::new(alloc),
            mark: 0,
            next: 0,
            finished: false,
        })
    }

    /// The head of a group was taken.
    fn take_head(&mut self, link: u32, first: Stamp, members: u64, key: Nums)
        requires there { link < length self.old.lanes.items }
        ensures takes { (job : Declared) (taken : List (List FrameSeen)) (put : List FrameSeen) → state_is job taken put self.old
            → MayTake job taken link (GroupHead first members key) → state_is job (taken_more taken link (GroupHead first members key)) put self.new }
    {
        begin_at(&mut self.lanes, link, first, members, key);
    }

    /// A mark was taken.
    fn take_mark(&mut self, link: u32, mark: u64)
        requires there { link < length self.old.marks }
        ensures takes { (job : Declared) (taken : List (List FrameSeen)) (put : List FrameSeen) → state_is job taken put self.old
            → MayTake job taken link (GroupMark mark) → state_is job (taken_more taken link (GroupMark mark)) put self.new }
    {
        self.marks.raise(link, mark);
    }

    /// The end of a link was taken.
    fn take_end(&mut self, link: u32)
        requires there { link < length self.old.marks }
        ensures takes { (job : Declared) (taken : List (List FrameSeen)) (put : List FrameSeen) → state_is job taken put self.old
            → MayTake job taken link Finish → state_is job (taken_more taken link Finish) put self.new }
    {
        self.marks.end(link);
    }

    /// A member was taken: the answer, where a group is whole with it.
    fn take_member(
        &mut self,
        job: &Job,
        link: u32,
        at: Stamp,
        vals: Nums,
    ) -> Result<Option<Answer>, OutOfMemory>
        requires { CanTake (declared_of job.now) self.old link (Member at vals) }
        ensures takes { IfOk result (λ answer. (taken : List (List FrameSeen)) (put : List FrameSeen) → state_is (declared_of job.now) taken put self.old
            → MayTake (declared_of job.now) taken link (Member at vals)
            → state_is (declared_of job.now) (taken_more taken link (Member at vals)) (put ++ answer_frames answer) self.new) }
    {
        if !add_at(&mut self.lanes, link, at, vals)? {
            return Ok(None);
        }
        let answer = answer_at(&self.lanes, &mut self.profile, job, link)?;
        Ok(Some(answer))
    }

    /// A frame was taken that may stand where it stands: the answer, where a group is whole with it. It is
    /// refused for want of memory alone, and the state is of no use then.
    pub fn take(
        &mut self,
        job: &Job,
        link: u32,
        frame: &Frame,
    ) -> Result<Option<Answer>, OutOfMemory>
        requires { CanTake (declared_of job.now) self.old link frame.now }
        ensures takes { IfOk result (λ answer. (taken : List (List FrameSeen)) (put : List FrameSeen) → state_is (declared_of job.now) taken put self.old
            → MayTake (declared_of job.now) taken link frame.now
            → state_is (declared_of job.now) (taken_more taken link frame.now) (put ++ answer_frames answer) self.new) }
    {
        match frame {
            Frame::GroupHead {
                first,
                members,
                key,
            } => {
                self.take_head(link, *first, *members, *key);
                Ok(None)
            }
            Frame::Member { at, vals } => self.take_member(job, link, *at, *vals),
            Frame::GroupMark { mark } => {
                self.take_mark(link, *mark);
                Ok(None)
            }
            Frame::Finish => {
                self.take_end(link);
                Ok(None)
            }
            // No other frame may stand on a link from a grouper.
            Frame::Item(_) => Ok(None),
            Frame::Mark { .. } => Ok(None),
            Frame::CaptureEnd { .. } => Ok(None),
            Frame::AnswerRow(_) => Ok(None),
            Frame::Profile(_) => Ok(None),
            Frame::CountsRow { .. } => Ok(None),
        }
    }

    /// The next frame that is due, which is put then: a mark, where the least of the links that go on has
    /// risen; and once all have finished, the rows of the profile and the end.
    pub fn next_due(&mut self) -> Option<Frame>
        ensures puts { (job : Declared) (taken : List (List FrameSeen)) (put : List FrameSeen) → state_is job taken put self.old
            → state_is job taken (put ++ option_to_list result) self.new }
        ensures unfinished { (frame : FrameSeen) → result ≡ Some frame → self.old.finished ≡ false }
        ensures rests { result ≡ None → (job : Declared) (taken : List (List FrameSeen)) (put : List FrameSeen) → state_is job taken put self.old
            → (is_mark_due (least_of_links (length taken) (taken_on taken)) self.new.mark ≡ false)
            × (least_of_links (length taken) (taken_on taken) ≡ None → self.new.finished ≡ true) }
    {
        if self.finished {
            return None;
        }
        match self.marks.least() {
            Some(least) => self.next_mark(least),
            None => Some(self.next_row()),
        }
    }

    /// Whether the end was put.
    pub fn ended(&self) -> bool
        ensures { (job : Declared) (taken : List (List FrameSeen)) (put : List FrameSeen) → state_is job taken put self.now → has_finish put ≡ result }
    {
        self.finished
    }

    /// The mark, where it has risen.
    fn next_mark(&mut self, least: u64) -> Option<Frame>
        requires open_yet { self.old.finished ≡ false }
        requires is { least_mark self.old.marks ≡ Some least }
        ensures puts { (job : Declared) (taken : List (List FrameSeen)) (put : List FrameSeen) → state_is job taken put self.old
            → state_is job taken (put ++ option_to_list result) self.new }
        ensures rests { result ≡ None → (least ≤ self.old.mark) × (self.new ≡ self.old) }
    {
        if least <= self.mark {
            return None;
        }
        self.mark = least;
        Some(Frame::GroupMark { mark: least })
    }

    /// The next row of the profile, or the end behind the last.
    fn next_row(&mut self) -> Frame
        requires open_yet { self.old.finished ≡ false }
        requires none { least_mark self.old.marks ≡ None }
        ensures puts { (job : Declared) (taken : List (List FrameSeen)) (put : List FrameSeen) → state_is job taken put self.old
            → state_is job taken (put ++ result ∷ []) self.new }
    {
        let _ = self.profile.len();
        match self.profile.row(self.next) {
            Some(row) => {
                self.next += 1;
                Frame::Profile(row)
            }
            None => {
                self.finished = true;
                Frame::Finish
            }
        }
    }
}

// So many links on which no group came yet.
fn empty_lanes(alloc: Global, links: u32) -> Result<Vec<Taking>, OutOfMemory>
    ensures { IfOk result (λ lanes. lanes.items ≡ replicate links new_taking) }
{
    let Ok(mut lanes) = Vec::with_capacity(alloc, links as usize) else {
        return Err(OutOfMemory);
    };
    for _ in 0..links {
        lanes.push_reserved(Taking::new(alloc));
    }
    Ok(lanes)
}

// A group begins on one link.
fn begin_at(lanes: &mut Vec<Taking>, link: u32, first: Stamp, members: u64, key: Nums)
    requires { link < length lanes.old.items }
    ensures { lanes.new.items ≡ slice_set lanes.old.items link (begun_taking first members key) }
{
    lanes[link as usize].begin(first, members, key);
}

// A member comes on one link. True exactly where the group is whole with it.
fn add_at(lanes: &mut Vec<Taking>, link: u32, at: Stamp, vals: Nums) -> Result<bool, OutOfMemory>
    requires there { link < length lanes.old.items }
    requires begun { 0 < (slice_index_or lanes.old.items link new_taking).left }
    ensures added { OnOk result (lanes.new.items ≡ slice_set lanes.old.items link (with_member at vals (slice_index_or lanes.old.items link new_taking))) }
    ensures whole { IfOk result (λ whole. whole ≡ ((with_member at vals (slice_index_or lanes.old.items link new_taking)).left == 0)) }
{
    let lane = &mut lanes[link as usize];
    lane.add(at, vals)?;
    Ok(lane.left() == 0)
}

// The answer to a group by the job's query.
fn answer_to(job: &Job, group: &Group) -> Answer
    requires { IsAnswerable (declared_of job.now) (copies_of group.now) }
    ensures { result ≡ answer_of (declared_of job.now) (copies_of group.now) }
{
    Answer {
        first: group.members.get(0).at,
        key: group.key,
        members: group.members.len(),
        verdict: job.judge(group),
    }
}

// The answer to the group that became whole on a link, which is counted too.
fn answer_at(
    lanes: &Vec<Taking>,
    profile: &mut Profile,
    job: &Job,
    link: u32,
) -> Result<Answer, OutOfMemory>
    requires there { link < length lanes.now.items }
    requires answerable { IsAnswerable (declared_of job.now) (copies_taken (slice_index_or lanes.now.items link new_taking)) }
    requires captures { length (declared_of job.now).captures ≤ 64 }
    requires few { (from to : ℕ) → count_of from to profile.old + length (times_between from to (delays (slice_index_or lanes.now.items link new_taking).members)) < 2 ^ 55 }
    ensures answer { IfOk result (λ answer. answer ≡ answer_of (declared_of job.now) (copies_taken (slice_index_or lanes.now.items link new_taking))) }
    ensures adds { OnOk result (AddsGroup job.now.profile (copies_taken (slice_index_or lanes.now.items link new_taking)) profile.old profile.new) }
    ensures few_rows { length profile.old ≤ 4096 → OnOk result (length profile.new ≤ 4096) }
{
    let group = lanes[link as usize].group();
    let answer = answer_to(job, group);
    count_delays(profile, job, group)?;
    Ok(answer)
}

// Counts the delays of a group, where the job asks for them.
fn count_delays(profile: &mut Profile, job: &Job, group: &Group) -> Result<(), OutOfMemory>
    requires answerable { IsAnswerable (declared_of job.now) (copies_of group.now) }
    requires captures { length (declared_of job.now).captures ≤ 64 }
    requires few { (from to : ℕ) → count_of from to profile.old + length (times_between from to (delays group.now.members.items)) < 2 ^ 55 }
    ensures adds { OnOk result (AddsGroup job.now.profile (copies_of group.now) profile.old profile.new) }
    ensures few_rows { length profile.old ≤ 4096 → OnOk result (length profile.new ≤ 4096) }
{
    if !job.profile {
        return Ok(());
    }
    add_group(profile, group)
}

// Counts the delays of a group.
fn add_group(profile: &mut Profile, group: &Group) -> Result<(), OutOfMemory>
    requires answerable { (job : Declared) × IsAnswerable job (copies_of group.now) × (length job.captures ≤ 64) }
    requires few { (from to : ℕ) → count_of from to profile.old + length (times_between from to (delays group.now.members.items)) < 2 ^ 55 }
    ensures adds { OnOk result (AddsGroup true (copies_of group.now) profile.old profile.new) }
    ensures few_rows { OnOk result (length profile.new ≤ 4096) }
{
    profile.add(group)?;
    let _ = profile.len();
    Ok(())
}
