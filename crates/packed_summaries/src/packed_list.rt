//! The packed list.

ghost use Rattle.std.specs.Prelude.{◌≡◌, ◌==◌, ◌↔◌, ◌<◌, IsTrue, ◌++◌, [], ◌∷◌, Some, OnOk, OnErr, length, slice_get};
ghost use Rattle.std.specs.Ordering.{nat_cmp};
ghost use Rattle.std.specs.Cmp.Lexicographic.{slice_cmp};
ghost use Rattle.ds_base.specs.declared.summary.Summary.{Summary};
ghost use Rattle.packed_summaries.specs.Rows.{Fits};

use crate::fits::fits;
use crate::packing::Packing;
use crate::row::{compare_keys, key_in, push_row, row_at, stamp_in, summary_in, value_in};
use ds_base::{Nums, OutOfMemory, Stamp, Summary};
use std::alloc::Global;
use std::cmp::Ordering;
use std::marker::Model;

/// A list of summaries of one job that grows at its end. A summary takes 16 bytes, and 8 or 16 more for each of its
/// values. A stamp, a value and the order of two keys are read without unpacking the summary.
#[derive(Drop)]
pub struct PackedList {
    /// How each row is laid out.
    packing: Packing,
    /// The rows, one behind the other.
    words: Vec<u64>,
    /// How many rows there are.
    len: u64,
}

impl Model for PackedList {
    ghost use Rattle.packed_summaries.specs.Packed.{Packed, AreRows, summaries_in};

    ghost Value = { Packed };

    ghost view = { λ l. record { shape = l.packing; items = summaries_in l.packing l.len l.words.items } };

    ghost invariant = { λ l. AreRows l.packing l.len l.words.items };
}

impl PackedList {
    /// The empty list, whose growth comes from `alloc`. It takes no memory.
    pub fn new(alloc: Global, packing: Packing) -> Self
        ensures shape { result.shape ≡ packing }
        ensures empty { result.items ≡ [] }
    {
        PackedList {
            packing,
            words: Vec::new(alloc),
            len: 0,
        }
    }

    /// How many summaries there are.
    pub fn len(&self) -> u64
        ensures { result ≡ length self.now.items }
    {
        self.len
    }

    /// Whether there is no summary.
    pub fn is_empty(&self) -> bool
        ensures { result ≡ (length self.now.items == 0) }
    {
        self.len == 0
    }

    /// How the summaries are packed.
    pub fn packing(&self) -> &Packing
        ensures { result.now ≡ self.now.shape }
    {
        &self.packing
    }

    /// Whether a row can hold the summary, which `push` asks: its capture is below 2^24 and its number below
    /// 2^40, it has a value for each variable, none of 2^64 or more where the variable is not wide, and its
    /// key is the values of the key's variables.
    pub fn fits(&self, s: &Summary) -> bool
        ensures { IsTrue result ↔ Fits self.now.shape s.now }
    {
        fits(&self.packing, s)
    }

    /// Puts a summary at the end. The only refusal is want of memory, and then the list is as it was.
    pub fn push(&mut self, s: &Summary) -> Result<(), OutOfMemory>
        requires { Fits self.old.shape s.now }
        ensures shape { self.new.shape ≡ self.old.shape }
        ensures pushed { OnOk result (self.new.items ≡ self.old.items ++ s.now ∷ []) }
        ensures refused { OnErr result (self.new.items ≡ self.old.items) }
    {
        let Ok(()) = self.words.reserve(self.packing.stride()) else {
            return Err(OutOfMemory);
        };
        push_row(&mut self.words, &self.packing, s);
        self.len += 1;
        Ok(())
    }

    /// The summary at `i`, counted from 0.
    pub fn get(&self, i: u64) -> Summary
        requires { i < length self.now.items }
        ensures { slice_get self.now.items i ≡ Some result }
    {
        let row = row_at(&self.words, self.packing.stride(), self.len, i);
        summary_in(&self.packing, row)
    }

    /// The stamp of the summary at `i`.
    pub fn stamp_at(&self, i: u64) -> Stamp
        requires { i < length self.now.items }
        ensures { (s : Summary) → slice_get self.now.items i ≡ Some s → result ≡ s.at }
    {
        stamp_in(row_at(&self.words, self.packing.stride(), self.len, i))
    }

    /// The key of the summary at `i`.
    pub fn key_at(&self, i: u64) -> Nums
        requires { i < length self.now.items }
        ensures { (s : Summary) → slice_get self.now.items i ≡ Some s → result ≡ s.key }
    {
        let row = row_at(&self.words, self.packing.stride(), self.len, i);
        key_in(&self.packing, row)
    }

    /// The value of a variable in the summary at `i`.
    pub fn value_at(&self, i: u64, variable: u32) -> u128
        requires within { i < length self.now.items }
        requires known { variable < length self.now.shape.wide }
        ensures { (s : Summary) → slice_get self.now.items i ≡ Some s → slice_get s.vals variable ≡ Some result }
    {
        let row = row_at(&self.words, self.packing.stride(), self.len, i);
        value_in(row, self.packing.column(variable))
    }

    /// The order of the keys of the summaries at `i` and at `j`: the first numbers that differ decide.
    pub fn compare_keys(&self, i: u64, j: u64) -> Ordering
        requires first { i < length self.now.items }
        requires second { j < length self.now.items }
        ensures { (a b : Summary) → slice_get self.now.items i ≡ Some a → slice_get self.now.items j ≡ Some b
            → result ≡ slice_cmp nat_cmp a.key b.key }
    {
        let first = row_at(&self.words, self.packing.stride(), self.len, i);
        let second = row_at(&self.words, self.packing.stride(), self.len, j);
        compare_keys(&self.packing, first, second)
    }
}
