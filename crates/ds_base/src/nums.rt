//! Short lists of wide numbers, such as keys and values.

ghost use Rattle.std.specs.Prelude.{◌≡◌, ◌<◌, ◌≤◌, ◌++◌, [], ◌∷◌, length, slice_get, Some};

use std::marker::Model;

/// At most 16 numbers below 2^128, of fixed size.
#[derive(Clone, Copy, Debug, PartialEq, Eq, PartialOrd, Ord)]
pub struct Nums {
    len: u32,
    slots: [u128; 16],
}

impl Model for Nums {
    ghost use Rattle.std.specs.Prelude.{ℕ, List, ◌≡◌, ◌-◌, ◌++◌, take, length, replicate};

    ghost Value = { List ℕ };

    ghost view = { λ nums. take nums.len nums.slots };

    ghost use Rattle.ds_base.specs.Nums.{IsPadded, restored};

    // The slots after the numbers are 0, so that equal lists are equal values.
    ghost invariant = { λ nums. IsPadded nums.len nums.slots };

    ghost inverse = { λ numbers. record { len = length numbers; slots = numbers ++ replicate (16 - length numbers) 0 } };

    ghost inverse_ok = { λ nums padded. restored nums padded };
}

impl Nums {
    /// How many numbers there can be.
    pub const MOST: u32 = 16;

    /// No number.
    pub fn new() -> Self
        ensures { result ≡ [] }
    {
        Nums {
            len: 0,
            slots: [0; 16],
        }
    }

    /// How many numbers there are.
    pub fn len(&self) -> u32
        ensures { result ≡ length self.now }
    {
        self.len
    }

    /// The number at `i`, counted from 0.
    pub fn get(&self, i: u32) -> u128
        requires { i < length self.now }
        ensures { slice_get self.now i ≡ Some result }
    {
        self.slots[i as usize]
    }

    /// All numbers, of which there are at most 16.
    pub fn as_slice(&self) -> &[u128]
        ensures value { result.now ≡ self.now }
        ensures few { length self.now ≤ 16 }
    {
        self.slots.split_at(self.len as usize).0
    }

    /// Puts a number at the end.
    pub fn push(&mut self, n: u128)
        requires { length self.old < 16 }
        ensures { self.new ≡ self.old ++ n ∷ [] }
    {
        self.slots[self.len as usize] = n;
        self.len += 1;
    }
}
