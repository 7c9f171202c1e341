//! Lists of lists, made, changed and ended.
ghost use Rattle.std.specs.Prelude.{◌≡◌, ◌<◌, ◌≤◌, ℕ, [], IfOk, length};
ghost use Rattle.node_lists.specs.Lists.{AreEmpty, HaveRoom, SetsAt, items_at};

use ds_base::{ItemList, OutOfMemory};
use std::alloc::Global;
use std::mem;

/// So many lists without items, each with room for so many. It is refused for want of memory alone.
pub fn lists_with_room<T>(
    alloc: Global,
    count: u32,
    room: u64,
) -> Result<ItemList<ItemList<T>>, OutOfMemory>
    ensures empty { IfOk result (λ lists. AreEmpty count lists.items) }
    ensures room { IfOk result (λ lists. HaveRoom room lists.items) }
{
    let mut lists = ItemList::new(alloc);
    for _ in 0..count {
        let Ok(list) = list_with_room(alloc, room) else {
            destroy_lists(lists);
            return Err(OutOfMemory);
        };
        if let Err(list) = lists.push(list) {
            list.destroy_empty();
            destroy_lists(lists);
            return Err(OutOfMemory);
        }
    }
    Ok(lists)
}

/// A list without items that has room for so many. It is refused for want of memory alone.
pub fn list_with_room<T>(alloc: Global, room: u64) -> Result<ItemList<T>, OutOfMemory>
    ensures empty { IfOk result (λ list. list.items ≡ []) }
    ensures room { IfOk result (λ list. room ≤ list.spare) }
{
    let mut list = ItemList::new(alloc);
    match list.reserve(room) {
        Ok(()) => Ok(list),
        Err(_) => {
            list.destroy_empty();
            Err(OutOfMemory)
        }
    }
}

/// The end of lists that have no items.
pub fn destroy_lists<T>(lists: ItemList<ItemList<T>>)
    requires { (i : ℕ) → items_at lists.items i ≡ [] }
{
    let mut lists = lists;
    while let Some(last) = lists.pop() {
        last.destroy_empty();
    }
    lists.destroy_empty();
}

/// Takes list `at` out and leaves one without items there.
pub fn take_list<T>(alloc: Global, lists: &mut ItemList<ItemList<T>>, at: u64) -> ItemList<T>
    requires { at < length lists.old.items }
    ensures taken { result.items ≡ items_at lists.old.items at }
    ensures left { SetsAt lists.old.items lists.new.items at [] }
{
    mem::replace(lists.get_mut(at), ItemList::new(alloc))
}

/// Puts a list in the place of one that has no items.
pub fn put_list<T>(lists: &mut ItemList<ItemList<T>>, at: u64, list: ItemList<T>)
    requires there { at < length lists.old.items }
    requires empty { items_at lists.old.items at ≡ [] }
    ensures { SetsAt lists.old.items lists.new.items at list.items }
{
    let empty = mem::replace(lists.get_mut(at), list);
    empty.destroy_empty();
}
