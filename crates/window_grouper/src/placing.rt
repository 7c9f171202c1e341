//! Where a summary goes among the open groups.

ghost use Rattle.std.specs.Prelude.{◌≡◌, ◌≤◌, ◌+◌, ◌<◌, ◌%◌, ◌^◌, ◌++◌, ◌∷◌, [], Some, IfSome, IfNone, OnOk, OnErr, slice_get, slice_set, length};
ghost use Rattle.ds_base.specs.Copies.{Copies};
ghost use Rattle.window_grouper.specs.Newest.{AreKept, Puts};
ghost use Rattle.window_grouper.specs.Placing.{shown, with_member, single, placed, HaveBegun, Slot, slot_of, IsSound};

use crate::newest::{Begun, Newest};
use ds_base::{Group, ItemList, OutOfMemory, Summary};
use std::collections::VecDeque;

/// Places a summary among the groups that are held, where `given` groups were given out before them: in
/// the newest group with its key where its time is in that group's window, and else in a group of its
/// own. The only refusal is want of memory, and then the groups are as they were.
pub(crate) fn place(
    groups: &mut VecDeque<Group>,
    newest: &mut Newest,
    given: u64,
    window: u64,
    s: &Summary,
) -> Result<(), OutOfMemory>
    requires { IsSound window given newest.old (shown groups.old.items) }
    ensures sound { IsSound window given newest.new (shown groups.new.items) }
    ensures placed { OnOk result (HaveBegun s.now.at.time (shown groups.old.items)
        → shown groups.new.items ≡ placed window s.now (shown groups.old.items)) }
    ensures kept { OnErr result (shown groups.new.items ≡ shown groups.old.items) }
{
    match taker(newest, given, window, s) {
        Some(place) => join(groups, place, s),
        None => begin(groups, newest, given, s),
    }
}

/// The place of the newest group with the key of `s`, where its window reaches `s`.
fn taker(newest: &Newest, given: u64, window: u64, s: &Summary) -> Option<u64>
    ensures near { IfSome result (λ place. (b : Slot) × (slot_of given newest.now s.now.key ≡ Some b) × (b.place ≡ place)
        × (s.now.at.time ≤ b.began + window)) }
    ensures past { IfNone result ((b : Slot) → slot_of given newest.now s.now.key ≡ Some b
        → b.began + window < s.now.at.time) }
{
    let group = newest.get(&s.key)?;
    if s.at.time.saturating_sub(group.time) <= window {
        Some(group.number.wrapping_sub(given))
    } else {
        None
    }
}

/// Puts a summary behind the members of the group at `place`.
fn join(groups: &mut VecDeque<Group>, place: u64, s: &Summary) -> Result<(), OutOfMemory>
    requires { place < length groups.old.items }
    ensures joined { OnOk result ((g : Copies) → slice_get (shown groups.old.items) place ≡ Some g
        → shown groups.new.items ≡ slice_set (shown groups.old.items) place (with_member g s.now)) }
    ensures kept { OnErr result (shown groups.new.items ≡ shown groups.old.items) }
{
    let group = &mut groups[place as usize];
    match group.members.push(*s) {
        Ok(()) => Ok(()),
        Err(_) => Err(OutOfMemory),
    }
}

/// Begins a group with a summary, which is then the newest with its key.
fn begin(
    groups: &mut VecDeque<Group>,
    newest: &mut Newest,
    given: u64,
    s: &Summary,
) -> Result<(), OutOfMemory>
    ensures begun { OnOk result ((shown groups.new.items ≡ shown groups.old.items ++ single s.now ∷ [])
        × Puts newest.old newest.new s.now.key
        (record { number = (given + length groups.old.items) % 2 ^ 64; time = s.now.at.time })) }
    ensures kept { OnErr result ((shown groups.new.items ≡ shown groups.old.items) × AreKept newest.old newest.new) }
{
    let begun = Begun {
        number: given.wrapping_add(groups.len() as u64),
        time: s.at.time,
    };
    let mut members = ItemList::new(*groups.allocator());
    let Ok(()) = members.push(*s) else {
        return Err(OutOfMemory);
    };
    let group = Group {
        key: s.key,
        members,
    };
    let Ok(()) = groups.reserve(1) else {
        return Err(OutOfMemory);
    };
    newest.put(s.key, begun)?;
    groups.push_back_reserved(group);
    Ok(())
}
