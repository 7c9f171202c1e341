//! The marks of the captures of a job.
ghost use Rattle.std.specs.Prelude.{◌≡◌, ◌≤◌, ◌<◌, Some, None, length, set, get_or, replicate};
ghost use Rattle.watermarks.specs.Least.{IsLeast, least_mark, lesser};
ghost use Rattle.watermarks.specs.Raised.{raised_to};

use crate::least::least_of;
use crate::slots::Slots;
use std::marker::Model;

/// For each capture its mark, a time in nanoseconds: no summary of the capture with a lesser time comes
/// any more. Once a capture has ended none of it comes at all, and it has no mark. Contracts see the
/// marks as a list in the order of the captures' numbers.
///
/// No call takes memory.
#[derive(Drop)]
pub struct Marks {
    /// How many captures there are.
    captures: u32,
    /// The mark of each capture, from 0. The places of captures that are not there are not looked at.
    marks: Slots,
    /// The least of the marks, so that it is found in constant time.
    least: Option<u64>,
}

impl Model for Marks {
    ghost use Rattle.std.specs.Prelude.{ℕ, List, Option, ◌≡◌, ◌≤◌, take};
    ghost use Rattle.watermarks.specs.Least.{least_mark};
    ghost use Rattle.watermarks.specs.Raised.{IsKept};

    ghost Value = { List (Option ℕ) };

    ghost view = { λ m. take m.captures m.marks };

    ghost invariant = { λ m. IsKept m.captures m.marks m.least };
}

impl Marks {
    /// The most captures that there can be.
    pub const MOST: u32 = 64;

    /// The marks of so many captures, each of them 0.
    pub fn new(captures: u32) -> Self
        requires { captures ≤ 64 }
        ensures { result ≡ replicate captures (Some 0) }
    {
        let marks = Slots::new();
        let least = least_of(&marks, captures);
        Marks {
            captures,
            marks,
            least,
        }
    }

    /// The mark of a capture. None exactly when it has ended.
    pub fn get(&self, capture: u32) -> Option<u64>
        requires { capture < length self.now }
        ensures { result ≡ get_or self.now capture None }
    {
        self.marks.get(capture)
    }

    /// Raises the mark of a capture to `mark`, or leaves it where it is not below that. The mark of a
    /// capture that has ended is not raised.
    pub fn raise(&mut self, capture: u32, mark: u64)
        requires { capture < length self.old }
        ensures { self.new ≡ set self.old capture (raised_to mark (get_or self.old capture None)) }
    {
        if let Some(before) = self.get(capture) {
            self.replace(capture, Some(before.max(mark)));
        }
    }

    /// The capture has ended: none of its summaries comes any more.
    pub fn end(&mut self, capture: u32)
        requires { capture < length self.old }
        ensures { self.new ≡ set self.old capture None }
    {
        self.replace(capture, None);
    }

    /// The least mark of the captures that have not ended. None exactly when all have ended. It takes
    /// constant time.
    pub fn least(&self) -> Option<u64>
        ensures least { IsLeast self.now result }
        ensures value { result ≡ least_mark self.now }
    {
        self.least
    }

    /// Puts a mark that is not below the capture's own in its place. All marks are looked at only
    /// where the least of them may rise.
    fn replace(&mut self, capture: u32, mark: Option<u64>)
        requires place { capture < length self.old }
        requires later { lesser (get_or self.old capture None) mark ≡ get_or self.old capture None }
        ensures { self.new ≡ set self.old capture mark }
    {
        let before = self.marks.get(capture);
        self.marks.set(capture, mark);
        if before == self.least {
            self.least = least_of(&self.marks, self.captures);
        }
    }
}
