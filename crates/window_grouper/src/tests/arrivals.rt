//! Groups that are closed by marks, by hand and beside `central`.
ghost use Rattle.std.specs.Prelude.{◌<◌, ◌≤◌, OnOk, length};

use super::summary;
use crate::{
    Grouper, central, closed_in_front, closed_stay, held_once, is_in_stamp_order, shard_groups,
    stamps_apart,
};
use ds_base::{Group, GroupList, Summary, SummaryList};
use std::alloc::{AllocGlobal, Global};
use std::process::Abort;
use std::test::Fail;

/// Whether a summary is of one of eight captures and may be added.
fn may_add(grouper: &Grouper, s: &Summary) -> bool
    requires { 8 ≤ length grouper.now.marks }
{
    s.at.capture < 8 && grouper.may_add(&s.at)
}

/// Adds a summary of one of eight captures that may be added, and fails where it may not.
fn add(grouper: &mut Grouper, s: Summary) -> Result<(), Fail>
    requires { 8 ≤ length grouper.old.marks }
    ensures { OnOk result (8 ≤ length grouper.new.marks) }
{
    if s.at.capture >= 8 || !grouper.may_add(&s.at) {
        return Err(Fail::from("the summary may not be added"));
    }
    grouper.add(s)?;
    Ok(())
}

/// The next group that is closed, if there is one.
fn next(grouper: &mut Grouper) -> Result<Option<Group>, Fail>
    requires { 8 ≤ length grouper.old.marks }
    ensures { OnOk result (8 ≤ length grouper.new.marks) }
{
    let group = grouper.next_closed()?;
    Ok(group)
}

#[test]
fn a_group_is_closed_once_the_least_mark_has_passed_its_window(
    rt: HostRuntime,
) -> Result<(), Fail> {
    closed_in_front();
    closed_stay();
    held_once();
    shard_groups();
    stamps_apart();
    let mut grouper = Grouper::new(rt.alloc(), 8, 10);
    for capture in 2..8 {
        grouper.end(capture);
    }
    add(&mut grouper, summary(&(5, 0, &[7]), 0))?;
    grouper.raise(0, 16);
    grouper.raise(1, 15);
    assert!(rt; next(&mut grouper)?.is_none());
    assert_eq!(rt; grouper.out_mark(), Some(5));
    // The least mark is 15, so a summary of capture 1 may still come into the group.
    assert!(rt; !may_add(&grouper, &summary(&(15, 0, &[7]), 1)));
    add(&mut grouper, summary(&(15, 1, &[7]), 1))?;
    assert!(rt; !may_add(&grouper, &summary(&(15, 1, &[7]), 1)));
    grouper.raise(1, 16);
    assert!(rt; next(&mut grouper)?.is_some());
    assert!(rt; next(&mut grouper)?.is_none());
    assert_eq!(rt; grouper.out_mark(), Some(6));
    add(&mut grouper, summary(&(20, 0, &[7]), 2))?;
    grouper.end(0);
    assert!(rt; next(&mut grouper)?.is_none());
    grouper.end(1);
    assert!(rt; next(&mut grouper)?.is_some());
    assert!(rt; next(&mut grouper)?.is_none());
    assert_eq!(rt; grouper.out_mark(), None);
    Ok(())
}

/// The next of a row of numbers that look random.
fn drawn(seed: &mut u64) -> u64 {
    *seed = seed
        .wrapping_mul(6_364_136_223_846_793_005)
        .wrapping_add(1_442_695_040_888_963_407);
    *seed >> 33
}

fn is_same(a: &Group, b: &Group) -> bool {
    if a.key != b.key || a.members.len() != b.members.len() {
        return false;
    }
    for i in 0..a.members.len() {
        if i >= b.members.len() || a.members.get(i) != b.members.get(i) {
            return false;
        }
    }
    true
}

/// Compares all groups that are closed with the next of those that are wanted.
fn compare(
    rt: &impl Abort,
    grouper: &mut Grouper,
    want: &GroupList,
    given: &mut u64,
) -> Result<(), Fail>
    requires { 8 ≤ length grouper.old.marks }
    ensures { OnOk result (8 ≤ length grouper.new.marks) }
{
    'groups: for _ in 0..u64::MAX {
        let Some(group) = next(grouper)? else {
            return Ok(());
        };
        let there = *given < want.len();
        assert!(rt; there);
        assert!(rt; is_same(&group, want.get(*given)));
        *given += 1;
    }
    Err(Fail::from("more groups than there are"))
}

/// 100,000 summaries of eight captures and 500 keys in stamp order.
fn drawn_list(alloc: Global, seed: &mut u64) -> Result<SummaryList, Fail> {
    let mut list = SummaryList::new(alloc);
    let mut time: u64 = 0;
    for number in 0..100_000 {
        time = time.wrapping_add(1 + drawn(seed) % 3);
        let capture = (drawn(seed) % 8) as u32;
        let key = (drawn(seed) % 500) as u128;
        let Ok(()) = list.push(summary(&(time, capture, &[key]), number)) else {
            return Err(Fail::from("out of memory"));
        };
    }
    Ok(list)
}

#[test]
fn any_arrival_gives_the_groups_of_the_list(rt: HostRuntime) -> Result<(), Fail> {
    let mut seed = 20_190_226;
    let list = drawn_list(rt.alloc(), &mut seed)?;
    assert!(rt; is_in_stamp_order(&list));
    let want = central(rt.alloc(), &list, 1_000)?;
    for _ in 0..2 {
        arrive(&rt, &list, &want, &mut seed)?;
    }
    Ok(())
}

/// Each turn some summaries of one capture come, the last first, and its mark follows; then the groups
/// that are closed are compared.
fn arrive(
    rt: &(impl Abort + AllocGlobal),
    list: &SummaryList,
    want: &GroupList,
    seed: &mut u64,
) -> Result<(), Fail> {
    let mut grouper = Grouper::new(rt.alloc(), 8, 1_000);
    let mut given = 0;
    let mut next_place = [0; 8];
    'turns: for _ in 0..1_000_000 {
        let capture = (drawn(seed) % 8) as u32;
        let from: u64 = next_place[capture as usize];
        if from < list.len() {
            let to = from.saturating_add(1 + drawn(seed) % 2_000).min(list.len());
            feed(&mut grouper, list, capture, from, to)?;
            next_place[capture as usize] = to;
            compare(rt, &mut grouper, want, &mut given)?;
        }
    }
    assert_eq!(rt; given, want.len());
    Ok(())
}

/// Adds the summaries of one capture among some of a list, the last first, and then raises its mark to
/// the time of the next place, or ends it where there is none.
fn feed(
    grouper: &mut Grouper,
    list: &SummaryList,
    capture: u32,
    from: u64,
    to: u64,
) -> Result<(), Fail>
    requires captures { 8 ≤ length grouper.old.marks }
    requires one { capture < 8 }
    ensures { OnOk result (8 ≤ length grouper.new.marks) }
{
    for back in from..to {
        let place = to - 1 - (back - from);
        if place < list.len() && list.get(place).at.capture == capture {
            add(grouper, *list.get(place))?;
        }
    }
    if to < list.len() {
        grouper.raise(capture, list.get(to).at.time);
    } else {
        grouper.end(capture);
    }
    Ok(())
}
