//! The groups of lists by hand, and of summaries that arrive in many orders.
mod arrivals;

use crate::{OpenGroups, all_grouped, central, is_in_stamp_order, one_cut, one_grouping};
use ds_base::{Group, GroupList, Nums, OutOfMemory, Stamp, Summary, SummaryList, Text};
use std::alloc::Global;
use std::process::Abort;
use std::test::Fail;

/// A summary of a record by its time, its capture and its key.
type Short<'a> = (u64, u32, &'a [u128]);

fn numbers(from: &[u128]) -> Nums {
    let mut nums = Nums::new();
    for n in from {
        if nums.len() < Nums::MOST {
            nums.push(*n);
        }
    }
    nums
}

fn summary(row: &Short, number: u64) -> Summary {
    let (time, capture, key) = *row;
    Summary {
        at: Stamp {
            time,
            capture,
            number,
        },
        key: numbers(key),
        vals: numbers(&[]),
    }
}

fn summaries(alloc: Global, rows: &[Short]) -> Result<SummaryList, Fail> {
    let mut list = SummaryList::new(alloc);
    for (number, row) in rows.iter().enumerate() {
        let Ok(()) = list.push(summary(row, number as u64)) else {
            return Err(Fail::from("out of memory"));
        };
    }
    Ok(list)
}

/// Each group as its key, and the number in the list of each member: `7: 0 2; 8,1: 1;`.
fn shown(alloc: Global, groups: &GroupList) -> Result<Text, OutOfMemory> {
    let mut text = Text::new(alloc);
    for i in 0..groups.len() {
        let group = groups.get(i);
        for k in 0..group.key.len() {
            if k > 0 {
                text.push_str(",")?;
            }
            text.push_decimal(group.key.get(k))?;
        }
        text.push_str(":")?;
        for k in 0..group.members.len() {
            text.push_str(" ")?;
            text.push_decimal(group.members.get(k).at.number as u128)?;
        }
        text.push_str(";")?;
    }
    Ok(text)
}

fn put(groups: &mut GroupList, group: Group) -> Result<(), Fail> {
    match groups.push(group) {
        Ok(()) => Ok(()),
        Err(_) => Err(Fail::from("out of memory")),
    }
}

/// The groups in the order in which they are given out: before each summary those that are over at its
/// time, and all others at the end.
fn one_by_one(alloc: Global, window: u64, list: &SummaryList) -> Result<GroupList, Fail> {
    let mut given = GroupList::new(alloc);
    let mut held = OpenGroups::new(alloc, window);
    for i in 0..list.len() {
        let summary = list.get(i);
        while let Some(group) = held.next_closed(summary.at.time) {
            put(&mut given, group)?;
        }
        held.place(summary)?;
    }
    while let Some(group) = held.next() {
        put(&mut given, group)?;
    }
    Ok(given)
}

fn groups_are(
    rt: &impl Abort,
    alloc: Global,
    window: u64,
    rows: &[Short],
    want: &str,
) -> Result<(), Fail> {
    let list = summaries(alloc, rows)?;
    assert!(rt; is_in_stamp_order(&list));
    let groups = central(alloc, &list, window)?;
    let text = shown(alloc, &groups)?;
    assert_eq!(rt; text.as_str(), want);
    let given = one_by_one(alloc, window, &list)?;
    let text = shown(alloc, &given)?;
    assert_eq!(rt; text.as_str(), want);
    Ok(())
}

#[test]
fn lists_by_hand_give_their_groups(rt: HostRuntime) -> Result<(), Fail> {
    let alloc = rt.alloc();
    groups_are(&rt, alloc, 10, &[], "")?;
    groups_are(&rt, alloc, 10, &[(5, 0, &[7])], "7: 0;")?;
    // The window is closed at its end, and goes from the first member.
    groups_are(&rt, alloc, 10, &[(5, 0, &[7]), (15, 0, &[7])], "7: 0 1;")?;
    groups_are(&rt, alloc, 10, &[(5, 0, &[7]), (16, 0, &[7])], "7: 0;7: 1;")?;
    groups_are(
        &rt,
        alloc,
        10,
        &[
            (0, 0, &[7]),
            (8, 1, &[7]),
            (16, 0, &[7]),
            (18, 1, &[7]),
            (27, 0, &[7]),
        ],
        "7: 0 1;7: 2 3;7: 4;",
    )?;
    // Groups stand in the order of their firsts, whichever ends last.
    groups_are(
        &rt,
        alloc,
        10,
        &[(0, 0, &[7]), (1, 0, &[8]), (2, 1, &[8]), (9, 1, &[7])],
        "7: 0 3;8: 1 2;",
    )?;
    // A key is all of its numbers.
    groups_are(
        &rt,
        alloc,
        10,
        &[
            (0, 0, &[]),
            (1, 0, &[1]),
            (2, 0, &[1, 2]),
            (3, 0, &[1, 3]),
            (4, 1, &[1, 2]),
            (5, 1, &[]),
            (6, 1, &[2, 1]),
        ],
        ": 0 5;1: 1;1,2: 2 4;1,3: 3;2,1: 6;",
    )?;
    // At one time, and without a window.
    groups_are(
        &rt,
        alloc,
        0,
        &[(3, 0, &[7]), (3, 1, &[7]), (3, 2, &[8]), (4, 0, &[7])],
        "7: 0 1;8: 2;7: 3;",
    )?;
    // At the greatest times.
    groups_are(
        &rt,
        alloc,
        3_600_000_000_000,
        &[
            (0, 0, &[7]),
            (18_446_744_073_709_551_614, 0, &[7]),
            (18_446_744_073_709_551_615, 1, &[7]),
        ],
        "7: 0;7: 1 2;",
    )
}

#[test]
fn a_group_is_given_out_once_its_window_is_over(rt: HostRuntime) -> Result<(), Fail> {
    let alloc = rt.alloc();
    let mut held = OpenGroups::new(alloc, 10);
    assert!(rt; held.next_closed(u64::MAX).is_none());
    held.place(&summary(&(5, 0, &[7]), 0))?;
    held.place(&summary(&(9, 0, &[8]), 1))?;
    assert!(rt; held.next_closed(15).is_none());
    assert!(rt; held.next_closed(16).is_some());
    assert!(rt; held.next_closed(16).is_none());
    held.place(&summary(&(16, 0, &[7]), 2))?;
    assert!(rt; held.next_closed(19).is_none());
    assert!(rt; held.next_closed(20).is_some());
    assert!(rt; held.next_closed(20).is_none());
    assert!(rt; held.next().is_some());
    assert!(rt; held.next().is_none());
    Ok(())
}

#[test]
fn equal_and_falling_stamps_are_not_in_order(rt: HostRuntime) -> Result<(), Fail> {
    let alloc = rt.alloc();
    one_cut();
    one_grouping();
    all_grouped();
    for (rows, want) in [
        (&[(5, 0, &[7][..]), (5, 1, &[7][..])][..], true),
        (&[(5, 1, &[7][..]), (5, 0, &[7][..])][..], false),
        (
            &[(5, 0, &[7][..]), (6, 0, &[7][..]), (4, 0, &[7][..])][..],
            false,
        ),
    ] {
        assert_eq!(rt; is_in_stamp_order(&summaries(alloc, rows)?), want);
    }
    Ok(())
}
