//! The report of a list: each group is answered once its window is over.
ghost use Rattle.std.specs.Prelude.{ℕ, ◌≡◌, ◌≤◌, ◌++◌, ◌∷◌, [], List, IfOk, OnOk, length};
ghost use Rattle.ds_base.specs.declared.summary.Summary.{Summary};
ghost use Rattle.summary_spec.specs.Job.{declared_of};
ghost use Rattle.window_grouper.specs.Groups.{groups_of};
ghost use Rattle.window_grouper.specs.Positions.{ArePlaces};
ghost use Rattle.window_grouper.specs.Sorted.{by_stamp};
ghost use Rattle.central_report.specs.Laws.{AreReportable};
ghost use Rattle.central_report.specs.Progress.{AreInTurn, HasAnswered, HasLeft, HasTaken, HasTakenSome, IsNextOf};
ghost use Rattle.central_report.specs.Report.{report_over};

use crate::closing::closed;
use crate::written::Written;
use ds_base::{CountsList, OutOfMemory, Summary, Text};
use lean_order::stamp_order;
use packed_summaries::LeanList;
use std::alloc::Global;
use summary_spec::Job;
use window_grouper::OpenGroups;

/// The whole report of a job over the accepted summaries of its captures, in any order, and the counts
/// of each capture in the order of their numbers. The only refusal is want of memory.
///
/// Each group is answered once its window is over, and is then let go. So beside the list it holds the
/// text, the places of the list in the order of stamps, and the groups that may still gain a member.
/// It takes time in the number of summaries times its logarithm.
pub fn central_text(
    alloc: Global,
    job: &Job,
    list: &LeanList,
    counts: &CountsList,
) -> Result<Text, OutOfMemory>
    requires list { AreReportable (declared_of job.now) list.now.items }
    requires counts { length counts.now.items ≡ length job.now.names.captures.items }
    ensures { IfOk result (λ text. text.items ≡ report_over (declared_of job.now) (by_stamp list.now.items) counts.now.items) }
{
    let places = stamp_order(alloc, list)?;
    let written = answer_all(alloc, job, list, &places)?;
    closed(job, written, counts, list.len())
}

/// Answers all groups of a list whose summaries are taken up in the order of these places.
fn answer_all(
    alloc: Global,
    job: &Job,
    list: &LeanList,
    places: &[u64],
) -> Result<Written, OutOfMemory>
    requires list { AreInTurn (declared_of job.now) (by_stamp list.now.items) }
    requires places { ArePlaces list.now.items places.now (by_stamp list.now.items) }
    ensures { IfOk result (λ written. HasAnswered job.now.names.captures.items (declared_of job.now) written
        (groups_of job.now.window (by_stamp list.now.items))) }
{
    let mut groups = OpenGroups::new(alloc, job.window);
    let mut written = Written::new(alloc);
    for place in places {
        let s = list.get(*place);
        take_up(job, &s, &mut groups, &mut written)?;
    }
    answer_rest(job, &mut groups, &mut written)?;
    Ok(written)
}

/// Takes the next summary up, and first answers the groups that are over at its time.
fn take_up(
    job: &Job,
    s: &Summary,
    groups: &mut OpenGroups,
    written: &mut Written,
) -> Result<(), OutOfMemory>
    requires { IsNextOf job.now.names.captures.items (declared_of job.now) groups.old written.old s.now }
    ensures { OnOk result ((front : List Summary) (before : ℕ) → before ≤ s.now.at.time → AreInTurn (declared_of job.now) (front ++ s.now ∷ []) →
        HasTaken job.now.names.captures.items (declared_of job.now) groups.old written.old front before →
        HasTaken job.now.names.captures.items (declared_of job.now) groups.new written.new (front ++ s.now ∷ []) s.now.at.time) }
{
    answer_closed(job, s.at.time, groups, written)?;
    groups.place(s)
}

/// Answers the groups whose windows are over at this time.
fn answer_closed(
    job: &Job,
    time: u64,
    groups: &mut OpenGroups,
    written: &mut Written,
) -> Result<(), OutOfMemory>
    requires { HasTakenSome job.now.names.captures.items (declared_of job.now) groups.old written.old time }
    ensures { OnOk result ((front : List Summary) (before : ℕ) → before ≤ time →
        HasTaken job.now.names.captures.items (declared_of job.now) groups.old written.old front before →
        HasTaken job.now.names.captures.items (declared_of job.now) groups.new written.new front time) }
{
    while let Some(group) = groups.next_closed(time) {
        written.answer(job, &group)?;
    }
    Ok(())
}

/// Answers the groups that are left, after the last summary.
fn answer_rest(job: &Job, groups: &mut OpenGroups, written: &mut Written) -> Result<(), OutOfMemory>
    requires { (front : List Summary) × HasLeft job.now.names.captures.items (declared_of job.now) groups.old.held written.old front }
    ensures { OnOk result ((front : List Summary) →
        HasLeft job.now.names.captures.items (declared_of job.now) groups.old.held written.old front →
        HasAnswered job.now.names.captures.items (declared_of job.now) written.new (groups_of job.now.window front)) }
{
    while let Some(group) = groups.next() {
        written.answer(job, &group)?;
    }
    Ok(())
}
