//! Patterns of paths.

ghost use Rattle.std.specs.Prelude.{◌≡◌, ◌<◌, ◌≤◌, ◌++◌, [], ◌∷◌, length, slice_get, Some};

use ds_base::ItemList;
use std::marker::Model;

/// One step of a pattern of paths.
#[derive(Clone, Copy, Debug, PartialEq, Eq)]
pub enum Step {
    /// This capture, by its number.
    Point(u32),
    /// Any one capture.
    One,
    /// Any number of captures, none too.
    Many,
}

/// A pattern of paths, of fixed size: up to 32 steps, in the order in which a packet meets them. One
/// without a step is met by no packet.
#[derive(Debug, Drop)]
pub struct Pattern {
    // How many of the slots are steps, from the front.
    len: u32,
    steps: [Step; 32],
}

/// Patterns, of which a path that is allowed matches one.
pub type PatternList = ItemList<Pattern>;

impl Model for Pattern {
    ghost use Rattle.std.specs.Prelude.{List, ◌≡◌, ◌≤◌, take, length};
    ghost use Rattle.path_judges.specs.declared.pattern.Step.{Step};

    ghost Value = { List Step };

    ghost view = { λ pattern. take pattern.len pattern.steps };

    ghost invariant = { λ pattern. (pattern.len ≤ 32) × (length pattern.steps ≡ 32) };
}

impl Pattern {
    /// How many steps there can be.
    pub const MOST: u32 = 32;

    /// No step.
    pub fn new() -> Self
        ensures { result ≡ [] }
    {
        Pattern {
            len: 0,
            steps: [Step::One; 32],
        }
    }

    /// How many steps there are, 32 at most.
    pub fn len(&self) -> u32
        ensures steps { result ≡ length self.now }
        ensures most { result ≤ 32 }
    {
        self.len
    }

    /// The step at `i`, counted from 0.
    pub fn get(&self, i: u32) -> Step
        requires { i < length self.now }
        ensures { slice_get self.now i ≡ Some result }
    {
        self.steps[i as usize]
    }

    /// Puts a step at the end.
    pub fn push(&mut self, step: Step)
        requires { length self.old < 32 }
        ensures { self.new ≡ self.old ++ step ∷ [] }
    {
        self.steps[self.len as usize] = step;
        self.len += 1;
    }
}
