//! The list from which all lists of the product are made.

ghost use Rattle.std.specs.Prelude.{◌≡◌, ◌==◌, ◌+◌, ◌≤◌, ◌<◌, [], ◌∷◌, ◌++◌, length, slice_get, option_to_list, OnOk, OnErr, IfErr, IsNone, ◌↔◌};

use crate::OutOfMemory;
use std::alloc::Global;
use std::marker::Model;

/// A list that grows at its end. Contracts see its `items`, and as `spare` how many more it takes
/// without asking for memory. A list of items that may not be dropped ends by `destroy_empty`.
#[derive(Drop)]
pub struct ItemList<T> {
    items: Vec<T>,
}

impl<T> Model for ItemList<T> {
    ghost use Rattle.std.specs.Prelude.{◌-◌};
    ghost use Rattle.std.specs.Vec.{vec_capacity, vec_len};
    ghost use Rattle.ds_base.specs.Items.{Items};

    ghost Value = { Items T };

    ghost view = { λ list. record { items = list.items.items; spare = vec_capacity list.items - vec_len list.items } };
}

impl<T> ItemList<T> {
    ghost use Rattle.std.specs.Borrow.{sem};
    ghost use Rattle.ds_base.specs.Lending.{LendsItem};

    /// The empty list, whose growth comes from `alloc`. It takes no memory.
    pub fn new(alloc: Global) -> Self
        ensures { result.items ≡ [] }
    {
        ItemList {
            items: Vec::new(alloc),
        }
    }

    /// How many items there are.
    pub fn len(&self) -> u64
        ensures { result ≡ length self.now.items }
    {
        self.items.len() as u64
    }

    /// Whether there is no item.
    pub fn is_empty(&self) -> bool
        ensures { result ≡ (length self.now.items == 0) }
    {
        self.items.is_empty()
    }

    /// The item at `i`, counted from 0.
    pub fn get(&self, i: u64) -> &T
        requires { i < length self.now.items }
        ensures { slice_get self.now.items i ≡ Some result.now }
    {
        &self.items[i as usize]
    }

    /// The item at `i`, counted from 0, to be changed.
    pub fn get_mut(&mut self, i: u64) -> &mut T
        requires { i < length self.old.items }
        ensures* writes_back { sem 𝓛 (LendsItem T.row self.entry i result) }
        ensures value { slice_get self.old.items i ≡ Some result.now }
    {
        &mut self.items[i as usize]
    }

    /// Puts an item at the end. It is refused for want of memory alone, which comes only where
    /// nothing was spare; then the list is as it was and the item comes back.
    pub fn push(&mut self, item: T) -> Result<(), T>
        ensures pushed { OnOk result (self.new.items ≡ self.old.items ++ item ∷ []) }
        ensures spare { OnOk result (self.old.spare ≤ self.new.spare + 1) }
        ensures refused { IfErr result (λ back. (back ≡ item) × (self.new.items ≡ self.old.items)) }
        ensures full { OnErr result (self.old.spare ≡ 0) }
    {
        // Room for one and then twice as much each time: most lists of a group's members hold one
        // item, and a `Vec` of its own accord begins with room for four.
        let len = self.items.len();
        if len == self.items.capacity() && self.items.reserve_exact(len.max(1)).is_err() {
            return Err(item);
        }
        match self.items.push(item) {
            Ok(()) => Ok(()),
            Err(refused) => Err(refused.value),
        }
    }

    /// Takes the last item out. None exactly where the list is empty.
    pub fn pop(&mut self) -> Option<T>
        ensures taken { self.old.items ≡ self.new.items ++ option_to_list result }
        ensures empty { IsNone result ↔ (self.old.items ≡ []) }
        ensures spare { self.old.spare ≤ self.new.spare }
    {
        self.items.pop()
    }

    /// Makes room for `more` items, which are then pushed without asking for memory.
    pub fn reserve(&mut self, more: u64) -> Result<(), OutOfMemory>
        ensures items { self.new.items ≡ self.old.items }
        ensures room { OnOk result (more ≤ self.new.spare) }
        ensures spare { self.old.spare ≤ self.new.spare }
    {
        match self.items.reserve(more as usize) {
            Ok(()) => Ok(()),
            Err(_) => Err(OutOfMemory),
        }
    }

    /// The end of a list without items, also where an item may not be dropped.
    pub fn destroy_empty(self)
        requires { self.items ≡ [] }
    {
        self.items.destroy_empty();
    }
}
