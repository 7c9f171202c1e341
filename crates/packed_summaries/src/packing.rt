//! How the summaries of a job are packed.

ghost use Rattle.std.specs.Prelude.{◌≡◌, ◌<◌, ◌≤◌, ◌+◌, ◌++◌, [], ◌∷◌, Some, OnOk, OnErr, length, slice_get};
ghost use Rattle.packed_summaries.specs.Packing.{columns_of, row_len, words_for};

use ds_base::{KeyList, OutOfMemory};
use std::alloc::Global;
use std::marker::Model;

/// Where the words of a variable's value stand in a row. A word has eight bytes.
#[derive(Clone, Copy, Debug, PartialEq, Eq)]
pub(crate) struct Column {
    /// The place of the first word in the row.
    pub start: usize,
    /// Whether there are two words, of which the first is the lower.
    pub wide: bool,
}

/// How the summaries of a job are packed: whether each of its variables is wide, so that its values take
/// 16 bytes in place of 8, and which variables the key has.
#[derive(Drop)]
pub struct Packing {
    /// The columns of the variables, in the order of their numbers.
    columns: Vec<Column>,
    /// How many words a row has: two for the stamp, and those of the columns.
    stride: usize,
    /// The numbers of the key's variables.
    key: KeyList,
}

impl Model for Packing {
    ghost use Rattle.packed_summaries.specs.Packing.{Shape, IsLaidOut, widths};

    ghost Value = { Shape };

    ghost view = { λ p. record { wide = widths p.columns.items; key = p.key.items } };

    ghost invariant = { λ p. IsLaidOut p.columns.items p.stride p.key.items };
}

impl Packing {
    /// Summaries without variables, whose key is empty. It takes no memory.
    pub fn new(alloc: Global) -> Self
        ensures variables { result.wide ≡ [] }
        ensures key { result.key ≡ [] }
    {
        Packing {
            columns: Vec::new(alloc),
            stride: 2,
            key: KeyList::new(alloc),
        }
    }

    /// Adds a variable behind the others; `wide` says whether it has values of 2^64 or more. The only
    /// refusal is want of memory, and then nothing changes.
    pub fn add_variable(&mut self, wide: bool) -> Result<(), OutOfMemory>
        requires { length self.old.wide < 16 }
        ensures added { OnOk result (self.new.wide ≡ self.old.wide ++ wide ∷ []) }
        ensures key { self.new.key ≡ self.old.key }
        ensures kept { OnErr result (self.new ≡ self.old) }
    {
        let start = self.stride;
        let Ok(()) = self.columns.push(Column { start, wide }) else {
            return Err(OutOfMemory);
        };
        self.stride += words_for(wide);
        Ok(())
    }

    /// Adds a variable behind the others of the key. The only refusal is want of memory, and then nothing
    /// changes.
    pub fn add_to_key(&mut self, variable: u32) -> Result<(), OutOfMemory>
        requires short { length self.old.key < 16 }
        requires known { variable < length self.old.wide }
        ensures added { OnOk result (self.new.key ≡ self.old.key ++ variable ∷ []) }
        ensures variables { self.new.wide ≡ self.old.wide }
        ensures kept { OnErr result (self.new ≡ self.old) }
    {
        match self.key.push(variable) {
            Ok(()) => Ok(()),
            Err(_) => Err(OutOfMemory),
        }
    }

    /// How many variables there are.
    pub fn variables(&self) -> u32
        ensures value { result ≡ length self.now.wide }
        ensures few { result ≤ 16 }
    {
        self.columns.len() as u32
    }

    /// How many variables the key has.
    pub fn key_len(&self) -> u32
        ensures value { result ≡ length self.now.key }
        ensures few { result ≤ 16 }
    {
        self.key.len() as u32
    }

    /// Variable `k` of the key.
    pub fn key_variable(&self, k: u32) -> u32
        requires { k < length self.now.key }
        ensures value { slice_get self.now.key k ≡ Some result }
        ensures known { result < length self.now.wide }
    {
        *self.key.get(u64::from(k))
    }

    /// The column of a variable.
    pub(crate) fn column(&self, variable: u32) -> Column
        requires { variable < length self.now.wide }
        ensures value { slice_get (columns_of self.now.wide) variable ≡ Some result }
        ensures inside { result.start + words_for result.wide ≤ row_len self.now.wide }
        ensures width { slice_get self.now.wide variable ≡ Some result.wide }
    {
        self.columns[variable as usize]
    }

    /// How many words a row has.
    pub(crate) fn stride(&self) -> usize
        ensures value { result ≡ row_len self.now.wide }
        ensures few { result ≤ 34 }
    {
        self.stride
    }
}

/// How many words a value has.
fn words_for(wide: bool) -> usize
    ensures { result ≡ words_for wide }
{
    if wide { 2 } else { 1 }
}
