//! Items and lists that go behind others.
ghost use Rattle.std.specs.Prelude.{◌≡◌, ◌<◌, ◌≤◌, ◌++◌, ◌∷◌, ◌+◌, [], OnOk, OnErr, length};
ghost use Rattle.node_lists.specs.Lists.{AppendsAt, JoinsLists};

use ds_base::{ItemList, OutOfMemory};

/// Puts an item behind those of list `at`. It is refused for want of memory alone.
pub fn push_at<T: Drop>(
    lists: &mut ItemList<ItemList<T>>,
    at: u64,
    item: T,
) -> Result<(), OutOfMemory>
    requires { at < length lists.old.items }
    ensures { OnOk result (AppendsAt lists.old.items lists.new.items at (item ∷ [])) }
{
    match lists.get_mut(at).push(item) {
        Ok(()) => Ok(()),
        Err(_) => Err(OutOfMemory),
    }
}

/// Moves the items of a list behind those of another, in their order. It is refused for want of memory alone,
/// and then no item was moved.
pub fn append_items<T>(into: &mut ItemList<T>, from: &mut ItemList<T>) -> Result<(), OutOfMemory>
    ensures joined { OnOk result (into.new.items ≡ into.old.items ++ from.old.items) }
    ensures emptied { OnOk result (from.new.items ≡ []) }
    ensures refused { OnErr result ((into.new.items ≡ into.old.items) × (from.new.items ≡ from.old.items)) }
{
    into.reserve(from.len())?;
    move_items(into, from);
    Ok(())
}

// Moves all items where there is room for them: the last one, once those before it were moved.
fn move_items<T>(into: &mut ItemList<T>, from: &mut ItemList<T>)
    requires { length from.old.items ≤ into.old.spare }
    ensures joined { into.new.items ≡ into.old.items ++ from.old.items }
    ensures emptied { from.new.items ≡ [] }
    ensures spare { into.old.spare ≤ into.new.spare + length from.old.items }
{
    let Some(last) = from.pop() else {
        return;
    };
    move_items(into, from);
    match into.push(last) {
        Ok(()) => {}
        Err(_) => unreachable!(),
    }
}

/// Moves the items of each list behind those of the other list with its number. It is refused for want of
/// memory alone.
pub fn append_lists<T: Drop>(
    into: &mut ItemList<ItemList<T>>,
    from: ItemList<ItemList<T>>,
) -> Result<(), OutOfMemory>
    requires { length from.items ≡ length into.old.items }
    ensures { OnOk result (JoinsLists into.old.items from.items into.new.items) }
{
    let mut from = from;
    while let Some(mut last) = from.pop() {
        append_at(into, from.len(), &mut last)?;
    }
    Ok(())
}

// Moves the items of a list behind those of list `at`.
fn append_at<T>(
    lists: &mut ItemList<ItemList<T>>,
    at: u64,
    from: &mut ItemList<T>,
) -> Result<(), OutOfMemory>
    requires { at < length lists.old.items }
    ensures { OnOk result (AppendsAt lists.old.items lists.new.items at from.old.items) }
{
    append_items(lists.get_mut(at), from)
}
