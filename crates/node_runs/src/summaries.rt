//! A job of three captures, the summaries of their packets, and the groups that come of these.
use ds_base::{Group, GroupList, Nums, Stamp, Summary, SummaryList};
use node_frames::Frame;
use std::alloc::Global;
use std::test::Fail;
use summary_spec::Job;
use window_grouper::{central, is_in_stamp_order};

/// The job: groups by identification, within 100 nanoseconds, that end at the third capture.
const JOB: &str =
    r#"{"version":1,"captures":[{"name":"a","file":"a"},{"name":"b","file":"b"},{"name":"c","file":"c"}],"vars":[{"name":"id","take":["ipv4[-1].id"]}],"key":["id"],"window":100,"skew":10,"query":{"kind":"drop","exits":["c"]},"profile":true}"#;

/// The window of the job.
const WINDOW: u64 = 100;

/// The time, the capture, the number and the identification of a summary.
pub(crate) type Row = (u64, u32, u64, u8);

/// The summaries in the order of stamps. In each capture no time is more than 10 below an earlier one. By the FNV-1a hash
/// all go to the second of two groupers.
pub(crate) const ROWS: [Row; 20] = [
    (1000, 0, 0, 2),
    (1000, 1, 0, 2),
    (1005, 2, 1, 4),
    (1010, 2, 0, 6),
    (1090, 1, 1, 4),
    (1100, 2, 2, 2),
    (1101, 0, 1, 2),
    (1105, 1, 2, 4),
    (1110, 0, 2, 6),
    (1150, 2, 3, 4),
    (1195, 1, 4, 6),
    (1200, 0, 3, 2),
    (1201, 1, 3, 2),
    (1202, 2, 4, 2),
    (1290, 0, 5, 6),
    (1300, 0, 4, 4),
    (1500, 1, 5, 8),
    (1500, 2, 5, 8),
    (1600, 0, 6, 8),
    (1700, 2, 6, 2),
];

/// How many groups they make: those of 2 begin at 1000, 1101, 1202 and 1700, of 4 at 1005, 1150 and 1300, of 6 at 1010 and
/// 1195, and that of 8 at 1500.
const GROUPS: u64 = 10;

pub(crate) fn job(alloc: Global) -> Result<Job, Fail> {
    match Job::read(alloc, JOB.as_bytes()) {
        Ok(job) => Ok(job),
        Err(_) => Err(Fail::from("the job is refused")),
    }
}

pub(crate) fn summary(row: Row) -> Summary {
    let (time, capture, number, id) = row;
    let mut key = Nums::new();
    key.push(u128::from(id));
    let at = Stamp {
        time,
        capture,
        number,
    };
    Summary { at, key, vals: key }
}

/// The groups, by the plain program.
pub(crate) fn groups(alloc: Global) -> Result<GroupList, Fail> {
    let mut list = SummaryList::new(alloc);
    for row in ROWS {
        let Ok(()) = list.push(summary(row)) else {
            return Err(Fail::from("no memory"));
        };
    }
    if !is_in_stamp_order(&list) {
        return Err(Fail::from("not in stamp order"));
    }
    let groups = central(alloc, &list, WINDOW)?;
    if groups.len() != GROUPS {
        return Err(Fail::from("other groups"));
    }
    Ok(groups)
}

/// Puts the head of a group and its members.
pub(crate) fn put_group(frames: &mut Vec<Frame>, group: &Group) -> Result<(), Fail> {
    let (members, key) = (group.members.len(), group.key);
    for i in 0..members {
        let Summary { at, vals, .. } = *group.members.get(i);
        if i == 0 {
            frames.push(Frame::GroupHead {
                first: at,
                members,
                key,
            })?;
        }
        frames.push(Frame::Member { at, vals })?;
    }
    Ok(())
}

/// The marks among these frames of groups or answers.
pub(crate) fn marks_in(alloc: Global, frames: &[Frame]) -> Result<Vec<u64>, Fail> {
    let mut marks = Vec::new(alloc);
    for frame in frames {
        if let Frame::GroupMark { mark } = frame {
            marks.push(*mark)?;
        }
    }
    Ok(marks)
}

/// The others among them.
pub(crate) fn others_in(alloc: Global, frames: &[Frame]) -> Result<Vec<Frame>, Fail> {
    let mut others = Vec::new(alloc);
    for frame in frames {
        match frame {
            Frame::GroupMark { .. } => {}
            _ => others.push(*frame)?,
        }
    }
    Ok(others)
}
