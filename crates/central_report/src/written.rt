//! What is written of a report while its groups are answered.
ghost use Rattle.std.specs.Prelude.{ℕ, ◌≡◌, ◌<◌, ◌+◌, ◌^◌, ◌++◌, ◌∷◌, [], List, Some, length, slice_get, OnOk};
ghost use Rattle.answer_text.specs.Lines.{IsNamedIn};
ghost use Rattle.ds_base.specs.Copies.{Copies, copies_of};
ghost use Rattle.ds_base.specs.Items.{Items};
ghost use Rattle.ds_base.specs.declared.summary.Summary.{Summary};
ghost use Rattle.profiles.specs.Delays.{delays, times_between};
ghost use Rattle.profiles.specs.Rows.{count_of};
ghost use Rattle.summary_spec.specs.Declaration.{Declared};
ghost use Rattle.summary_spec.specs.Job.{declared_of};
ghost use Rattle.central_report.specs.Answering.{IsAnswerable, IsNext};
ghost use Rattle.central_report.specs.Progress.{counted_rows, HasAnswered};
ghost use Rattle.central_report.specs.Report.{answer_to, group_text};

use answer_text::push_answer_line;
use ds_base::{Answer, Group, OutOfMemory, Text};
use profiles::Profile;
use std::alloc::Global;
use summary_spec::Job;

/// What is written of a report so far: the lines of the groups that were answered, and what is counted
/// of these groups.
#[derive(Drop)]
pub(crate) struct Written {
    /// The lines.
    pub text: Text,
    /// The delays of the groups, where the job asks for them.
    pub profile: Profile,
    /// How many groups were answered.
    pub groups: u64,
}

impl Written {
    /// No group was answered. It takes no memory.
    pub(crate) fn new(alloc: Global) -> Self
        ensures { (names : List (Items ℕ)) (job : Declared) → HasAnswered names job result [] }
    {
        Written {
            text: Text::new(alloc),
            profile: Profile::new(alloc),
            groups: 0,
        }
    }

    /// Answers the next group. The only refusal is want of memory.
    pub(crate) fn answer(&mut self, job: &Job, group: &Group) -> Result<(), OutOfMemory>
        requires { IsNext (declared_of job.now) self.old (copies_of group.now) }
        ensures { OnOk result ((given : List Copies) →
            HasAnswered job.now.names.captures.items (declared_of job.now) self.old given →
            HasAnswered job.now.names.captures.items (declared_of job.now) self.new (given ++ copies_of group.now ∷ [])) }
    {
        push_group(&mut self.text, job, group)?;
        count_delays(&mut self.profile, job, group)?;
        self.groups += 1;
        Ok(())
    }
}

/// Puts the line of a group at the end.
fn push_group(text: &mut Text, job: &Job, group: &Group) -> Result<(), OutOfMemory>
    requires { IsAnswerable (declared_of job.now) (copies_of group.now) }
    ensures { OnOk result (text.new.items ≡ text.old.items
        ++ group_text job.now.names.captures.items (declared_of job.now).query (copies_of group.now)) }
{
    let answer = answer_of(job, group);
    push_answer_line(text, &job.names, &answer)
}

/// The answer to a group by the job's query.
fn answer_of(job: &Job, group: &Group) -> Answer
    requires { IsAnswerable (declared_of job.now) (copies_of group.now) }
    ensures answer { (first : Summary) → slice_get group.now.members.items 0 ≡ Some first →
        result ≡ answer_to (declared_of job.now).query (copies_of group.now) first }
    ensures first { result.first.capture < length job.now.names.captures.items }
    ensures verdict { IsNamedIn (length job.now.names.captures.items) result.verdict }
{
    Answer {
        first: group.members.get(0).at,
        key: group.key,
        members: group.members.len(),
        verdict: job.judge(group),
    }
}

/// Counts the delays of a group, where the job asks for them.
fn count_delays(profile: &mut Profile, job: &Job, group: &Group) -> Result<(), OutOfMemory>
    requires answerable { IsAnswerable (declared_of job.now) (copies_of group.now) }
    requires few { (from to : ℕ) → count_of from to profile.old + length (times_between from to (delays group.now.members.items)) < 2 ^ 55 }
    ensures { OnOk result (profile.new ≡ counted_rows job.now.profile (delays group.now.members.items) profile.old) }
{
    if !job.profile {
        return Ok(());
    }
    profile.add(group)
}
