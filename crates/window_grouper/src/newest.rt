//! The newest group of each key.

ghost use Rattle.std.specs.Prelude.{ℕ, List, ◌≡◌, None, OnOk, OnErr};
ghost use Rattle.window_grouper.specs.Newest.{newest_of, AreKept, Puts, Forgets};

use ds_base::{Nums, OutOfMemory};
use std::alloc::Global;
use std::collections::BTreeMap;

/// A group that has begun.
#[derive(Clone, Copy)]
pub(crate) struct Begun {
    /// Its number among all groups, from 0 and modulo 2^64.
    pub number: u64,
    /// The time of its first member, in nanoseconds.
    pub time: u64,
}

/// For each key its newest group. A look-up costs at most the logarithm of the number of keys,
/// whatever the keys are, and reads no group.
#[derive(Drop)]
pub(crate) struct Newest {
    groups: BTreeMap<Nums, Begun>,
}

impl Newest {
    /// No group of any key. It takes no memory.
    pub(crate) fn new(alloc: Global) -> Self
        ensures { (key : List ℕ) → newest_of result key ≡ None }
    {
        Newest {
            groups: BTreeMap::new(alloc),
        }
    }

    /// The newest group with the key. None exactly where there is no group with it.
    pub(crate) fn get(&self, key: &Nums) -> Option<Begun>
        ensures { result ≡ newest_of self.now key.now }
    {
        self.groups.get(key).copied()
    }

    /// Makes `group` the newest with the key. The only refusal is want of memory, and then nothing changes.
    pub(crate) fn put(&mut self, key: Nums, group: Begun) -> Result<(), OutOfMemory>
        ensures put { OnOk result (Puts self.old self.new key group) }
        ensures kept { OnErr result (AreKept self.old self.new) }
    {
        match self.groups.insert(key, group) {
            Ok(_) => Ok(()),
            Err(_) => Err(OutOfMemory),
        }
    }

    /// Takes out the newest group with the key, where it has this number.
    pub(crate) fn forget(&mut self, key: &Nums, number: u64)
        ensures { Forgets self.old self.new key.now number }
    {
        let Some(group) = self.get(key) else {
            return;
        };
        if group.number == number {
            self.groups.remove(key);
        }
    }
}
