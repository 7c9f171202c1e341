//! The trait of what chooses turns, and one that goes by a list.

ghost use Rattle.std.specs.Prelude.{◌≡◌, ◌++◌, [], option_to_list, IsNone, ◌↔◌};

use std::marker::Model;

/// Whose turn comes next, and how many bytes it may move on each link.
#[derive(Clone, Copy, Debug, PartialEq, Eq)]
pub struct Choice {
    /// The node's number, taken modulo the number of nodes.
    pub node: u32,
    /// Bytes; 0 counts as 1.
    pub cut: u32,
}

/// Chooses turns from outside.
pub trait Chooser {
    /// The next choice, or None where nothing more is chosen.
    fn next(&mut self) -> Option<Choice>;
}

/// Choices that were made beforehand. Contracts see those that were not given yet.
#[derive(Drop)]
pub struct ListChooser {
    choices: Vec<Choice>,
    given: usize,
}

impl Model for ListChooser {
    ghost use Rattle.std.specs.Prelude.{List, drop, ◌≤◌, length};
    ghost use Rattle.ds_base.specs.declared.chooser.Choice.{Choice};

    ghost Value = { List Choice };

    ghost view = { λ chooser. drop chooser.given chooser.choices.items };

    ghost invariant = { λ chooser. chooser.given ≤ length chooser.choices.items };
}

impl ListChooser {
    /// A chooser that gives these choices in order, and then None.
    pub fn new(choices: Vec<Choice>) -> Self
        ensures { result ≡ choices.items }
    {
        ListChooser { choices, given: 0 }
    }
}

impl Chooser for ListChooser {
    fn next(&mut self) -> Option<Choice>
        ensures given { self.old ≡ option_to_list result ++ self.new }
        ensures at_end { IsNone result ↔ (self.old ≡ []) }
    {
        if self.given >= self.choices.len() {
            return None;
        }
        let choice = self.choices[self.given];
        self.given += 1;
        Some(choice)
    }
}
