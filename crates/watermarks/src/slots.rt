//! Room for the marks of all captures that there can be.
ghost use Rattle.std.specs.Prelude.{◌≡◌, ◌<◌, ◌+◌, ◌++◌, ◌∷◌, [], Some, None, set, get_or, take, replicate};

use std::marker::Model;

/// 64 marks, each of which is there or not.
#[derive(Drop)]
pub(crate) struct Slots {
    /// The marks, in nanoseconds.
    marks: [u64; 64],
    /// Whether the capture has ended, so that its mark is not there.
    ended: [bool; 64],
}

impl Model for Slots {
    ghost use Rattle.std.specs.Prelude.{ℕ, List, Option, ◌≡◌, length};
    ghost use Rattle.watermarks.specs.Slots.{marks_of};

    ghost Value = { List (Option ℕ) };

    ghost view = { λ s. marks_of s.marks s.ended };

    ghost invariant = { λ s. (length s.marks ≡ 64) × (length s.ended ≡ 64) };
}

impl Slots {
    /// Each mark is there and 0.
    pub(crate) fn new() -> Self
        ensures { result ≡ replicate 64 (Some 0) }
    {
        Slots {
            marks: [0; 64],
            ended: [false; 64],
        }
    }

    /// The mark at `i`, if it is there.
    pub(crate) fn get(&self, i: u32) -> Option<u64>
        requires { i < 64 }
        ensures value { result ≡ get_or self.now i None }
        ensures next { take (i + 1) self.now ≡ take i self.now ++ result ∷ [] }
    {
        if self.ended[i as usize] {
            None
        } else {
            Some(self.marks[i as usize])
        }
    }

    /// Puts a mark in the place of the one at `i`.
    pub(crate) fn set(&mut self, i: u32, mark: Option<u64>)
        requires { i < 64 }
        ensures { self.new ≡ set self.old i mark }
    {
        match mark {
            Some(mark) => {
                self.marks[i as usize] = mark;
                self.ended[i as usize] = false;
            }
            None => self.ended[i as usize] = true,
        }
    }
}
