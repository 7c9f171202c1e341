//! A list of any summaries that takes little memory.

ghost use Rattle.std.specs.Prelude.{◌≡◌, ◌<◌, ◌++◌, [], ◌∷◌, Some, OnOk, OnErr, length, slice_get};
ghost use Rattle.ds_base.specs.declared.summary.Summary.{Summary};

use crate::packed_list::PackedList;
use crate::packing::Packing;
use ds_base::{OutOfMemory, Stamp, Summary, SummaryList};
use std::alloc::Global;
use std::marker::Model;

/// A list of summaries that grows at its end. Each is packed as long as all fit into rows; the first that
/// does not and all behind it are kept whole. So the packing says how much memory the list takes, and not
/// what it may hold.
#[derive(Drop)]
pub struct LeanList {
    /// The first summaries, packed.
    packed: PackedList,
    /// The others.
    whole: SummaryList,
    /// How many there are in all.
    len: u64,
}

impl Model for LeanList {
    ghost use Rattle.std.specs.Prelude.{◌≡◌, ◌+◌, ◌++◌, length};
    ghost use Rattle.packed_summaries.specs.Lean.{Lean};

    ghost Value = { Lean };

    ghost view = { λ l. record { items = l.packed.items ++ l.whole.items } };

    ghost invariant = { λ l. l.len ≡ length l.packed.items + length l.whole.items };
}

impl LeanList {
    /// The empty list, whose growth comes from `alloc`. It takes no memory.
    pub fn new(alloc: Global, packing: Packing) -> Self
        ensures { result.items ≡ [] }
    {
        LeanList {
            packed: PackedList::new(alloc, packing),
            whole: SummaryList::new(alloc),
            len: 0,
        }
    }

    /// How many summaries there are.
    pub fn len(&self) -> u64
        ensures { result ≡ length self.now.items }
    {
        self.len
    }

    /// Puts a summary at the end. The only refusal is want of memory, and then the list is as it was.
    pub fn push(&mut self, s: &Summary) -> Result<(), OutOfMemory>
        ensures pushed { OnOk result (self.new.items ≡ self.old.items ++ s.now ∷ []) }
        ensures refused { OnErr result (self.new.items ≡ self.old.items) }
    {
        let Some(len) = self.len.checked_add(1) else {
            return Err(OutOfMemory);
        };
        if self.whole.is_empty() && self.packed.fits(s) {
            self.packed.push(s)?;
        } else {
            let Ok(()) = self.whole.push(*s) else {
                return Err(OutOfMemory);
            };
        }
        self.len = len;
        Ok(())
    }

    /// The summary at `i`, counted from 0.
    pub fn get(&self, i: u64) -> Summary
        requires { i < length self.now.items }
        ensures { slice_get self.now.items i ≡ Some result }
    {
        let packed = self.packed.len();
        if i < packed {
            self.packed.get(i)
        } else {
            *self.whole.get(i - packed)
        }
    }

    /// The stamp of the summary at `i`.
    pub fn stamp_at(&self, i: u64) -> Stamp
        requires { i < length self.now.items }
        ensures { (s : Summary) → slice_get self.now.items i ≡ Some s → result ≡ s.at }
    {
        let packed = self.packed.len();
        if i < packed {
            self.packed.stamp_at(i)
        } else {
            self.whole.get(i - packed).at
        }
    }
}
