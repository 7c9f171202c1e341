//! The profile that grows.

ghost use Rattle.std.specs.Prelude.{ℕ, List, ◌≡◌, ◌<◌, ◌≤◌, ◌+◌, ◌^◌, ◌++◌, ◌∷◌, [], ◌↔◌, ◌==◌, length, slice_get, All, OnOk, OnErr, IfSome, IsNone};
ghost use Rattle.ds_base.specs.Times.{hour};
ghost use Rattle.ds_base.specs.Copies.{Copies, copies_of};
ghost use Rattle.ds_base.specs.Order.{InStampOrder};
ghost use Rattle.profiles.specs.Delays.{delays, times_between};
ghost use Rattle.profiles.specs.Rows.{IsSound, AreJoined, count_of};
ghost use Rattle.profiles.specs.Put.{AreKept, put, put_all, count_all};
ghost use Rattle.profiles.specs.Profile.{IsProfile};

use crate::rows::{count_group, make_room, put_row, put_rows};
use ds_base::{Group, OutOfMemory, ProfileRow};
use std::alloc::Global;
use std::marker::Model;

/// The delays between capture points: for each ordered pair of captures that has one, a row that
/// tells of them. Contracts see the rows, in rising order of (from, to).
///
/// The row of a delay is found by halving the list, which has at most 4,096 rows, and changed in place.
#[derive(Drop)]
pub struct Profile {
    // In rising order of their pairs.
    rows: Vec<ProfileRow>,
}

impl Model for Profile {
    ghost use Rattle.std.specs.Prelude.{List};
    ghost use Rattle.ds_base.specs.declared.profile_row.ProfileRow.{ProfileRow};
    ghost use Rattle.profiles.specs.Put.{AreKept};

    ghost Value = { List ProfileRow };

    ghost view = { λ profile. profile.rows.items };

    ghost invariant = { λ profile. AreKept profile.rows.items };
}

impl Profile {
    /// The profile of no groups, whose growth comes from `alloc`. It takes no memory.
    pub fn new(alloc: Global) -> Self
        ensures empty { result ≡ [] }
        ensures profile { IsProfile [] result }
    {
        Profile {
            rows: Vec::new(alloc),
        }
    }

    /// How many rows there are: one for each pair of captures with a delay.
    pub fn len(&self) -> u32
        ensures count { result ≡ length self.now }
        ensures few { result ≤ 4096 }
        ensures kept { AreKept self.now }
    {
        self.rows.len() as u32
    }

    /// Whether there is no row.
    pub fn is_empty(&self) -> bool
        ensures { result ≡ (length self.now == 0) }
    {
        self.rows.is_empty()
    }

    /// The row at `i`, counted from 0 in rising order of (from, to). None exactly past the last row.
    pub fn row(&self, i: u32) -> Option<ProfileRow>
        ensures value { result ≡ slice_get self.now i }
        ensures past { IsNone result ↔ (length self.now ≤ i) }
        ensures sound { IfSome result IsSound }
    {
        self.rows.get(i as usize).copied()
    }

    /// Counts the delays between neighbouring members of a group, each at most an hour. A refusal is
    /// want of memory, and then the profile is as it was.
    pub fn add(&mut self, group: &Group) -> Result<(), OutOfMemory>
        requires not_empty { 0 < length group.now.members.items }
        requires ordered { InStampOrder group.now.members.items }
        requires captures { All (λ member. member.at.capture < 64) group.now.members.items }
        requires hour { All (λ delay. delay.time ≤ hour) (delays group.now.members.items) }
        requires few { (from to : ℕ) → count_of from to self.old + length (times_between from to (delays group.now.members.items)) < 2 ^ 55 }
        ensures profile { OnOk result ((groups : List Copies) → IsProfile groups self.old → IsProfile (groups ++ copies_of group.now ∷ []) self.new) }
        ensures counts { OnOk result ((from to : ℕ) → count_of from to self.new
            ≡ count_of from to self.old + length (times_between from to (delays group.now.members.items))) }
        ensures value { OnOk result (self.new ≡ count_all (delays group.now.members.items) self.old) }
        ensures unchanged { OnErr result (self.new ≡ self.old) }
    {
        make_room(&mut self.rows, group.members.len())?;
        count_group(&mut self.rows, &group.members);
        Ok(())
    }

    /// Joins the rows of another profile, pair by pair: counts, sums and classes are added, the lesser
    /// least and the greater greatest stay. A refusal is want of memory, and then the profile is as it
    /// was.
    pub fn merge(&mut self, other: &Profile) -> Result<(), OutOfMemory>
        requires few { (from to : ℕ) → count_of from to self.old + count_of from to other.now < 2 ^ 55 }
        ensures joined { OnOk result (AreJoined self.old other.now self.new) }
        ensures profile { OnOk result ((groups more : List Copies) → IsProfile groups self.old → IsProfile more other.now
            → IsProfile (groups ++ more) self.new) }
        ensures counts { OnOk result ((from to : ℕ) → count_of from to self.new ≡ count_of from to self.old + count_of from to other.now) }
        ensures value { OnOk result (self.new ≡ put_all other.now self.old) }
        ensures unchanged { OnErr result (self.new ≡ self.old) }
    {
        make_room(&mut self.rows, other.rows.len() as u64)?;
        put_rows(&mut self.rows, &other.rows);
        Ok(())
    }

    /// Joins a row to that of its pair, as `merge` does. A refusal is want of memory, and then the
    /// profile is as it was.
    pub fn add_row(&mut self, row: &ProfileRow) -> Result<(), OutOfMemory>
        requires sound { IsSound row.now }
        requires few { count_of row.now.from row.now.to self.old + row.now.count < 2 ^ 55 }
        ensures joined { OnOk result (AreJoined self.old (row.now ∷ []) self.new) }
        ensures profile { OnOk result ((groups more : List Copies) → IsProfile groups self.old → IsProfile more (row.now ∷ [])
            → IsProfile (groups ++ more) self.new) }
        ensures value { OnOk result (self.new ≡ put row.now self.old) }
        ensures unchanged { OnErr result (self.new ≡ self.old) }
    {
        make_room(&mut self.rows, 1)?;
        show_width(&row.classes);
        put_row(&mut self.rows, row);
        Ok(())
    }
}

// A reference to an array says how long it is; a row behind a reference does not.
fn show_width(classes: &[u64; 64])
    ensures { length classes.now ≡ 64 }
{}
