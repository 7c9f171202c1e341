//! A profile of small groups, by hand.

ghost use Rattle.std.specs.Prelude.{ℕ, ◌≡◌, ◌<◌, ◌≤◌, ◌+◌, ◌⊎◌, ◌∷◌, [], IfOk};
ghost use Rattle.ds_base.specs.Times.{hour};
ghost use Rattle.ds_base.specs.Order.{Precedes};
ghost use Rattle.profiles.specs.Rows.{count_of};

use crate::Profile;
use ds_base::{Group, Nums, ProfileRow, Stamp, Summary, SummaryList};
use std::alloc::Global;
use std::test::Fail;

// A copy of a packet. Two of one capture may be of one time.
fn copy_at(capture: u32, time: u64, number: u64) -> Summary
    ensures at { result.at ≡ record { time = time; capture = capture; number = number } }
{
    let at = Stamp {
        time,
        capture,
        number,
    };
    Summary {
        at,
        key: Nums::new(),
        vals: Nums::new(),
    }
}

// Three copies of one packet.
fn group_of(alloc: Global, one: Summary, two: Summary, three: Summary) -> Result<Group, Fail>
    ensures { IfOk result (λ group. group.members.items ≡ one ∷ two ∷ three ∷ []) }
{
    let mut members = SummaryList::new(alloc);
    members.push(one)?;
    members.push(two)?;
    members.push(three)?;
    Ok(Group {
        key: Nums::new(),
        members,
    })
}

// The profile of one group of three copies.
fn profile_of(alloc: Global, one: Summary, two: Summary, three: Summary) -> Result<Profile, Fail>
    requires captures { (one.at.capture < 64) × (two.at.capture < 64) × (three.at.capture < 64) }
    requires first { Precedes one.at two.at }
    requires second { Precedes two.at three.at }
    requires hour { three.at.time ≤ one.at.time + hour }
    ensures { IfOk result (λ profile. (from to : ℕ) → count_of from to profile ≤ 2) }
{
    let group = group_of(alloc, one, two, three)?;
    let mut profile = Profile::new(alloc);
    profile.add(&group)?;
    Ok(profile)
}

// A row by its pair, its numbers and the classes that are not 0.
fn row_of(
    from: u32,
    to: u32,
    numbers: (u64, u128, u64, u64),
    classes: &[(usize, u64)],
) -> ProfileRow {
    let mut row = ProfileRow {
        from,
        to,
        count: numbers.0,
        sum: numbers.1,
        least: numbers.2,
        greatest: numbers.3,
        classes: [0; 64],
    };
    for class in classes {
        let (k, count) = *class;
        row.classes[k % 64] = count;
    }
    row
}

// A packet that was seen at three captures.
fn seen_thrice(alloc: Global) -> Result<Profile, Fail>
    ensures { IfOk result (λ profile. (from to : ℕ) → count_of from to profile ≤ 2) }
{
    let one = copy_at(0, 1_000_000_000, 0);
    let two = copy_at(1, 1_000_010_000, 0);
    let three = copy_at(2, 1_000_030_000, 0);
    profile_of(alloc, one, two, three)
}

// A packet that stayed at one capture, twice at one time, with ids of records that rise.
fn stayed(alloc: Global) -> Result<Profile, Fail>
    ensures { IfOk result (λ profile. (from to : ℕ) → count_of from to profile ≤ 2) }
{
    let one = copy_at(1, 7, 0);
    let two = copy_at(1, 7, 1);
    let three = copy_at(1, 12, 2);
    profile_of(alloc, one, two, three)
}

// A packet that went the first way again, later and slower, and then back.
fn went_back(alloc: Global) -> Result<Profile, Fail>
    ensures { IfOk result (λ profile. (from to : ℕ) → count_of from to profile ≤ 2) }
{
    let one = copy_at(0, 2_000_000_000, 0);
    let two = copy_at(1, 2_000_016_384, 0);
    let three = copy_at(0, 2_000_016_385, 1);
    profile_of(alloc, one, two, three)
}

#[test]
fn each_pair_of_neighbours_has_a_row(rt: HostRuntime) -> Result<(), Fail> {
    let profile = seen_thrice(rt.alloc())?;
    assert_eq!(rt; profile.len(), 2);
    assert!(rt; !profile.is_empty());
    let first = row_of(0, 1, (1, 10_000, 10_000, 10_000), &[(14, 1)]);
    assert!(rt; profile.row(0) == Some(first));
    let second = row_of(1, 2, (1, 20_000, 20_000, 20_000), &[(15, 1)]);
    assert!(rt; profile.row(1) == Some(second));
    assert!(rt; profile.row(2).is_none());
    let profile = stayed(rt.alloc())?;
    assert_eq!(rt; profile.len(), 1);
    assert!(rt; profile.row(0) == Some(row_of(1, 1, (2, 5, 0, 5), &[(0, 1), (3, 1)])));
    Ok(())
}

#[test]
fn profiles_are_joined_in_any_order(rt: HostRuntime) -> Result<(), Fail> {
    let rows = [
        row_of(0, 1, (2, 26_384, 10_000, 16_384), &[(14, 1), (15, 1)]),
        row_of(1, 0, (1, 1, 1, 1), &[(1, 1)]),
        row_of(1, 1, (2, 5, 0, 5), &[(0, 1), (3, 1)]),
        row_of(1, 2, (1, 20_000, 20_000, 20_000), &[(15, 1)]),
    ];
    let mut forth = seen_thrice(rt.alloc())?;
    forth.merge(&stayed(rt.alloc())?)?;
    forth.merge(&went_back(rt.alloc())?)?;
    let mut back = went_back(rt.alloc())?;
    let mut later = stayed(rt.alloc())?;
    later.merge(&seen_thrice(rt.alloc())?)?;
    back.merge(&later)?;
    assert_eq!(rt; forth.len(), 4);
    assert_eq!(rt; back.len(), 4);
    for i in 0..4u32 {
        assert!(rt; forth.row(i) == Some(rows[i as usize]));
        assert!(rt; back.row(i) == Some(rows[i as usize]));
    }
    // Row by row it comes to the same.
    let mut by_rows = seen_thrice(rt.alloc())?;
    if let Some(row) = stayed(rt.alloc())?.row(0) {
        if row.count < 1_000 {
            by_rows.add_row(&row)?;
        }
    }
    assert_eq!(rt; by_rows.len(), 3);
    assert!(rt; by_rows.row(1) == Some(rows[2]));
    Ok(())
}
