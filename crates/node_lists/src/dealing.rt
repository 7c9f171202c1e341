//! Items dealt out to lists in turn, and gathered again.
ghost use Rattle.std.specs.Prelude.{◌≡◌, ◌<◌, ◌≤◌, ◌+◌, ◌∷◌, ℕ, [], length};
ghost use Rattle.node_lists.specs.Dealing.{AreCounted, AreDealt};
ghost use Rattle.node_lists.specs.Lists.{AppendsAt, HaveRoom, items_at, spare_at};

use ds_base::ItemList;

/// Deals all items out to lists that have room for them: item c goes to list c modulo the number of lists, so
/// the items of each list are in their order.
pub fn deal<T>(items: &mut ItemList<T>, lists: &mut ItemList<ItemList<T>>)
    requires some { 0 < length lists.old.items }
    requires none { (p : ℕ) → items_at lists.old.items p ≡ [] }
    requires room { HaveRoom (length items.old.items) lists.old.items }
    ensures long { length lists.new.items ≡ length lists.old.items }
    ensures dealt { AreDealt (length lists.old.items) items.old.items (items_at lists.new.items) }
    ensures emptied { items.new.items ≡ [] }
    ensures room_left { (p : ℕ) → spare_at lists.old.items p ≤ spare_at lists.new.items p + length items.old.items }
{
    let Some(last) = items.pop() else {
        return;
    };
    let at = items.len() % lists.len();
    deal(items, lists);
    put_at(lists, at, last);
}

// Puts an item behind those of a list that has room for it.
fn put_at<T>(lists: &mut ItemList<ItemList<T>>, at: u64, item: T)
    requires there { at < length lists.old.items }
    requires room { 0 < spare_at lists.old.items at }
    ensures put { AppendsAt lists.old.items lists.new.items at (item ∷ []) }
    ensures room_left { (p : ℕ) → spare_at lists.old.items p ≤ spare_at lists.new.items p + 1 }
{
    match lists.get_mut(at).push(item) {
        Ok(()) => {}
        Err(_) => unreachable!(),
    }
}

/// Gathers so many items from the lists to which they were dealt out, in their order, into a list that has
/// room for them.
pub fn gather<T>(count: u64, lists: &mut ItemList<ItemList<T>>, into: &mut ItemList<T>)
    requires some { 0 < length lists.old.items }
    requires counted { AreCounted (length lists.old.items) count (items_at lists.old.items) }
    requires none { into.old.items ≡ [] }
    requires room { count ≤ into.old.spare }
    ensures gathered { AreDealt (length lists.old.items) into.new.items (items_at lists.old.items) }
    ensures count { length into.new.items ≡ count }
    ensures long { length lists.new.items ≡ length lists.old.items }
    ensures emptied { (p : ℕ) → p < length lists.old.items → items_at lists.new.items p ≡ [] }
    ensures room_left { into.old.spare ≤ into.new.spare + count }
{
    if count == 0 {
        return;
    }
    let last = take_last(lists, (count - 1) % lists.len());
    gather(count - 1, lists, into);
    match into.push(last) {
        Ok(()) => {}
        Err(_) => unreachable!(),
    }
}

// Takes the last item out of a list that has one.
fn take_last<T>(lists: &mut ItemList<ItemList<T>>, at: u64) -> T
    requires there { at < length lists.old.items }
    requires some { 0 < length (items_at lists.old.items at) }
    ensures { AppendsAt lists.new.items lists.old.items at (result ∷ []) }
{
    match lists.get_mut(at).pop() {
        Some(last) => last,
        None => unreachable!(),
    }
}
