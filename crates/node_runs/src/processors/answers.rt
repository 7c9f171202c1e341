//! What groupers put on their links to a query processor, and what it answers.
ghost use Rattle.std.specs.Prelude.{◌≡◌, ◌<◌, All, IsTrue, length};
ghost use Rattle.node_runs.specs.Members.{IsMemberOfJob};

use crate::summaries::{groups, put_group};
use ds_base::{Answer, Group, ProfileRow, Summary};
use node_frames::Frame;
use std::alloc::Global;
use std::test::Fail;
use summary_spec::Job;

/// What each of so many groupers puts: each group stands on the link that its key tells, and before it all links have the
/// mark of its first member's time.
pub(super) fn scripts(alloc: Global, groupers: u32) -> Result<Vec<Vec<Frame>>, Fail> {
    let mut scripts = Vec::new(alloc);
    for grouper in 0..groupers {
        scripts.push(script(alloc, grouper, groupers)?)?;
    }
    Ok(scripts)
}

fn script(alloc: Global, grouper: u32, groupers: u32) -> Result<Vec<Frame>, Fail> {
    let groups = groups(alloc)?;
    let mut frames = Vec::new(alloc);
    for k in 0..groups.len() {
        let group = groups.get(k);
        let mark = first_time(group);
        frames.push(Frame::GroupMark { mark })?;
        if number_in_key(group) / 2 % u128::from(groupers.max(1)) == u128::from(grouper) {
            put_group(&mut frames, group)?;
        }
    }
    frames.push(Frame::Finish)?;
    Ok(frames)
}

fn first_time(group: &Group) -> u64 {
    if group.members.is_empty() {
        return 0;
    }
    group.members.get(0).at.time
}

fn number_in_key(group: &Group) -> u128 {
    match group.key.as_slice() {
        [number, ..] => *number,
        [] => 0,
    }
}

/// The times at which groups begin, which rise.
pub(super) fn marks(alloc: Global) -> Result<Vec<u64>, Fail> {
    let groups = groups(alloc)?;
    let mut marks = Vec::new(alloc);
    for k in 0..groups.len() {
        marks.push(first_time(groups.get(k)))?;
    }
    Ok(marks)
}

/// What has to come beside marks: the answers of the job's judge in the order of the groups, the rows of the profile, and
/// the end.
pub(super) fn wanted(alloc: Global, job: &Job) -> Result<Vec<Frame>, Fail> {
    let groups = groups(alloc)?;
    let mut frames = Vec::new(alloc);
    for k in 0..groups.len() {
        frames.push(Frame::AnswerRow(answer(job, groups.get(k))?))?;
    }
    for (from, to, numbers, classes) in DELAYS {
        frames.push(Frame::Profile(row(from, to, numbers, classes)))?;
    }
    frames.push(Frame::Finish)?;
    Ok(frames)
}

fn answer(job: &Job, group: &Group) -> Result<Answer, Fail> {
    if !is_of_job(group, job.names.vars.len()) {
        return Err(Fail::from("a group of another job"));
    }
    Ok(Answer {
        first: group.members.get(0).at,
        key: group.key,
        members: group.members.len(),
        verdict: job.judge(group),
    })
}

// Whether the group has members, each of a capture below 64 and with so many values.
fn is_of_job(group: &Group, vars: u64) -> bool
    ensures some { IsTrue result → 0 < length group.now.members.items }
    ensures captures { IsTrue result → All (λ member. member.at.capture < 64) group.now.members.items }
    ensures values { IsTrue result → All (λ member. length member.vals ≡ vars) group.now.members.items }
{
    'members: for i in 0..group.members.len() {
        let member = group.members.get(i);
        if !is_member_of_job(member, vars) {
            return false;
        }
    }
    !group.members.is_empty()
}

fn is_member_of_job(member: &Summary, vars: u64) -> bool
    ensures { IsTrue result → IsMemberOfJob vars member.now }
{
    member.at.capture < 64 && u64::from(member.vals.len()) == vars
}

/// The delays from capture to capture: of 2 they are 0 and 100, 99 and 1, of 4 then 85 and 15, of 6 then 100, and 95, and of
/// 8 then 0 and 100. For each pair their count, sum, least and greatest, and the classes that are not empty.
const DELAYS: [(u32, u32, (u64, u128, u64, u64), &[(usize, u64)]); 7] = [
    (0, 0, (1, 99, 99, 99), &[(7, 1)]),
    (0, 1, (2, 1, 0, 1), &[(0, 1), (1, 1)]),
    (1, 0, (1, 95, 95, 95), &[(7, 1)]),
    (1, 1, (1, 15, 15, 15), &[(4, 1)]),
    (1, 2, (2, 100, 0, 100), &[(0, 1), (7, 1)]),
    (2, 0, (2, 200, 100, 100), &[(7, 2)]),
    (2, 1, (1, 85, 85, 85), &[(7, 1)]),
];

fn row(from: u32, to: u32, numbers: (u64, u128, u64, u64), classes: &[(usize, u64)]) -> ProfileRow {
    let mut row = ProfileRow {
        from,
        to,
        count: numbers.0,
        sum: numbers.1,
        least: numbers.2,
        greatest: numbers.3,
        classes: [0; 64],
    };
    for class in classes {
        let (k, count) = *class;
        row.classes[k % 64] = count;
    }
    row
}

/// These frames, but the answers among them first, in the order of their groups.
pub(super) fn answers_in_order(alloc: Global, frames: &[Frame]) -> Result<Vec<Frame>, Fail> {
    let mut answers = Vec::new(alloc);
    let mut others = Vec::new(alloc);
    for frame in frames {
        match frame {
            Frame::AnswerRow(answer) => answers.push(*answer)?,
            _ => others.push(*frame)?,
        }
    }
    answers.sort_by_key(|answer| answer.first)?;
    let mut ordered = Vec::new(alloc);
    for answer in &answers {
        ordered.push(Frame::AnswerRow(*answer))?;
    }
    ordered.extend_from_slice(&others)?;
    Ok(ordered)
}
