//! Room for what is kept of each capture that there can be.
ghost use Rattle.std.specs.Prelude.{◌≡◌, ◌≢◌, ◌<◌, ℕ, true, false, get_or, replicate};

use std::marker::Model;

/// 64 numbers. Contracts see them as a list.
#[derive(Drop)]
pub(crate) struct Numbers {
    slots: [u64; 64],
}

impl Model for Numbers {
    ghost use Rattle.std.specs.Prelude.{ℕ, List, ◌≡◌, length};

    ghost Value = { List ℕ };

    ghost view = { λ n. n.slots };

    ghost invariant = { λ n. length n.slots ≡ 64 };
}

impl Numbers {
    /// Each is 0.
    pub(crate) fn new() -> Self
        ensures { result ≡ replicate 64 0 }
    {
        Numbers { slots: [0; 64] }
    }

    /// The number at `i`.
    pub(crate) fn get(&self, i: u32) -> u64
        requires { i < 64 }
        ensures { result ≡ get_or self.now i 0 }
    {
        self.slots[i as usize]
    }

    /// Puts a number in the place of the one at `i`.
    pub(crate) fn set(&mut self, i: u32, number: u64)
        requires { i < 64 }
        ensures there { get_or self.new i 0 ≡ number }
        ensures others { (k : ℕ) → k ≢ i → get_or self.new k 0 ≡ get_or self.old k 0 }
    {
        self.slots[i as usize] = number;
    }
}

/// 64 truth values. Contracts see them as a list.
#[derive(Drop)]
pub(crate) struct Flags {
    slots: [bool; 64],
}

impl Model for Flags {
    ghost use Rattle.std.specs.Prelude.{Bool, List, ◌≡◌, length};

    ghost Value = { List Bool };

    ghost view = { λ n. n.slots };

    ghost invariant = { λ n. length n.slots ≡ 64 };
}

impl Flags {
    /// None is set.
    pub(crate) fn new() -> Self
        ensures { result ≡ replicate 64 false }
    {
        Flags { slots: [false; 64] }
    }

    /// Whether the one at `i` is set.
    pub(crate) fn get(&self, i: u32) -> bool
        requires { i < 64 }
        ensures { result ≡ get_or self.now i false }
    {
        self.slots[i as usize]
    }

    /// Sets the one at `i`.
    pub(crate) fn set(&mut self, i: u32)
        requires { i < 64 }
        ensures there { get_or self.new i false ≡ true }
        ensures others { (k : ℕ) → k ≢ i → get_or self.new k false ≡ get_or self.old k false }
    {
        self.slots[i as usize] = true;
    }
}
