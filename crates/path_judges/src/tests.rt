//! Worked groups of each judge.

ghost use Rattle.std.specs.Prelude.{◌<◌, length, All, IfOk};
ghost use Rattle.path_judges.specs.Members.{capture_of};

use crate::{Pattern, PatternList, Step, judge_drop, judge_loop, judge_path};
use ds_base::{Group, Nums, Stamp, Summary, SummaryList, Verdict};
use std::alloc::Global;
use std::test::Fail;

const S1: Step = Step::Point(0);

const S2: Step = Step::Point(1);

const S3: Step = Step::Point(2);

const ONE: Step = Step::One;

const MANY: Step = Step::Many;

// One copy of a packet. Its hop value is variable 1.
fn copy_at(capture: u32, hop: u128) -> Summary
    ensures capture { capture_of result < 64 }
    ensures values { 1 < length result.vals }
{
    let at = Stamp {
        time: 1_000_000_000,
        capture: capture % 64,
        number: 0,
    };
    let mut vals = Nums::new();
    vals.push(7);
    vals.push(hop);
    Summary {
        at,
        key: Nums::new(),
        vals,
    }
}

// A group of copies by their captures and hop values.
fn copies(alloc: Global, seen: &[(u32, u128)]) -> Result<Group, Fail>
    ensures captures { IfOk result (λ group. All (λ member. capture_of member < 64) group.members.items) }
    ensures values { IfOk result (λ group. All (λ member. 1 < length member.vals) group.members.items) }
{
    let mut members = SummaryList::new(alloc);
    for copy in seen {
        let (capture, hop) = *copy;
        members.push(copy_at(capture, hop))?;
    }
    Ok(Group {
        key: Nums::new(),
        members,
    })
}

fn walk(alloc: Global, captures: &[u32]) -> Result<Group, Fail>
    ensures { IfOk result (λ group. All (λ member. capture_of member < 64) group.members.items) }
{
    let mut members = SummaryList::new(alloc);
    for capture in captures {
        members.push(copy_at(*capture, 64))?;
    }
    Ok(Group {
        key: Nums::new(),
        members,
    })
}

fn pattern(steps: &[Step]) -> Pattern {
    let mut pattern = Pattern::new();
    for step in steps {
        if pattern.len() < Pattern::MOST {
            pattern.push(*step);
        }
    }
    pattern
}

fn patterns(alloc: Global, all: &[&[Step]]) -> Result<PatternList, Fail> {
    let mut list = PatternList::new(alloc);
    for steps in all {
        list.push(pattern(steps))?;
    }
    Ok(list)
}

#[test]
fn a_lesser_hop_value_at_the_same_capture_is_a_loop(rt: HostRuntime) -> Result<(), Fail> {
    let found = |capture, high, low| Verdict::Loop { capture, high, low };
    let table: [(&[(u32, u128)], Verdict); 8] = [
        (&[(0, 64), (1, 63), (0, 62)], found(0, 64, 62)),
        (&[(0, 64), (0, 64)], Verdict::Fine),
        (&[(0, 64), (1, 63), (2, 62)], Verdict::Fine),
        // The least second member, and then the least first one, though another has a greater value.
        (&[(0, 9), (1, 20), (1, 5), (0, 3)], found(1, 20, 5)),
        (&[(3, 61), (3, 64), (3, 60)], found(3, 61, 60)),
        (
            &[(63, u128::MAX), (63, u128::MAX - 1)],
            found(63, u128::MAX, u128::MAX - 1),
        ),
        (&[(0, 0), (0, u128::MAX), (0, 0)], found(0, u128::MAX, 0)),
        (&[], Verdict::Fine),
    ];
    for (seen, want) in table {
        let group = copies(rt.alloc(), seen)?;
        assert_eq!(rt; judge_loop(&group, 1), want, "in {seen:?}");
    }
    Ok(())
}

#[test]
fn a_packet_that_reached_no_exit_was_dropped_where_it_was_last_seen(
    rt: HostRuntime,
) -> Result<(), Fail> {
    let at_s3 = 0b100;
    let table: [(&[u32], u64, Verdict); 7] = [
        (&[0, 2], at_s3, Verdict::Fine),
        (&[0, 1, 2], at_s3, Verdict::Fine),
        (&[0, 1], at_s3, Verdict::Dropped { capture: 1 }),
        (&[1, 2], at_s3, Verdict::Fine),
        (&[2, 1], at_s3, Verdict::Fine),
        (&[0], 0, Verdict::Dropped { capture: 0 }),
        (&[0, 63], 1 << 63, Verdict::Fine),
    ];
    for (captures, exits, want) in table {
        let group = walk(rt.alloc(), captures)?;
        assert!(rt; !group.members.is_empty());
        assert_eq!(rt; judge_drop(&group, exits), want, "in {captures:?}");
    }
    Ok(())
}

#[test]
fn a_walk_that_no_pattern_allows_leaves_its_path_somewhere(rt: HostRuntime) -> Result<(), Fail> {
    let left_at = |at| Verdict::Path { at };
    let table: [(&[&[Step]], &[u32], Verdict); 14] = [
        (&[&[S1, MANY, S3]], &[0, 2], Verdict::Fine),
        (&[&[S1, MANY, S3]], &[0, 1, 2], Verdict::Fine),
        (&[&[S1, MANY, S3]], &[0, 1], left_at(2)),
        (&[&[S1, MANY, S3]], &[1, 2], left_at(0)),
        // `Many` is none, one or more, also at the end.
        (&[&[S1, MANY]], &[0], Verdict::Fine),
        (&[&[S1, MANY]], &[0, 2, 2, 1], Verdict::Fine),
        (
            &[&[MANY, S2, MANY, S3, MANY]],
            &[0, 1, 1, 2, 0],
            Verdict::Fine,
        ),
        (&[&[MANY, S2, MANY, S3]], &[2, 0, 1], left_at(3)),
        // `One` is one capture, and neither none nor two.
        (&[&[S1, ONE, S3]], &[0, 2], left_at(2)),
        (&[&[S1, ONE, S3]], &[0, 1, 1, 2], left_at(2)),
        // Behind the last capture of the pattern, and short of it.
        (&[&[S1, S2]], &[0, 1, 2], left_at(2)),
        (&[&[S1, S2, S3]], &[0, 1], left_at(2)),
        // The pattern that takes the walk furthest.
        (&[&[S1], &[S1, S2, S3], &[S2, S3]], &[0, 1, 0], left_at(2)),
        (&[&[S1, S1], &[ONE, S2]], &[0, 1], Verdict::Fine),
    ];
    for (all, captures, want) in table {
        let group = walk(rt.alloc(), captures)?;
        let allow = patterns(rt.alloc(), all)?;
        assert!(rt; !allow.is_empty());
        assert_eq!(rt; judge_path(&group, &allow), want, "in {captures:?}");
    }
    Ok(())
}
