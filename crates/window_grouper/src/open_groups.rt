//! Groups that are given out one after another, each once its window is over.

ghost use Rattle.std.specs.Prelude.{ℕ, List, ◌≡◌, ◌≤◌, ◌++◌, ◌∷◌, [], OnOk, OnErr, IfSome, IfNone, MatchBool};
ghost use Rattle.ds_base.specs.Copies.{Copies, copies_of};
ghost use Rattle.ds_base.specs.Order.{InStampOrder};
ghost use Rattle.ds_base.specs.declared.summary.Summary.{Summary};
ghost use Rattle.window_grouper.specs.Groups.{groups_of};
ghost use Rattle.window_grouper.specs.Open.{HasGiven, HasPlaced};
ghost use Rattle.window_grouper.specs.Over.{FirstIsOver, FirstIsOpen};
ghost use Rattle.window_grouper.specs.Placing.{HaveBegun, placed};

use crate::newest::Newest;
use crate::placing::place;
use ds_base::{Group, OutOfMemory, Summary};
use std::alloc::Global;
use std::collections::VecDeque;
use std::marker::Model;

/// The groups of a list in stamp order, one after another: summaries are placed in the order of their
/// stamps, and a group is given out once the time has passed its window. So it holds the groups that
/// may still gain a member, and those that were not asked for.
///
/// A summary is copied once, into its group. A call takes at most the logarithm of the number of
/// groups held, whatever the keys are.
#[derive(Drop)]
pub struct OpenGroups {
    /// In nanoseconds.
    window: u64,
    /// The groups that were not given out, in the order of their firsts' stamps.
    groups: VecDeque<Group>,
    /// For each key its newest group, where it was not given out. Groups have numbers in the order in
    /// which they begin.
    newest: Newest,
    /// The number of the next group to be given out. It counts modulo 2^64, since a list may be longer.
    given: u64,
}

impl Model for OpenGroups {
    ghost use Rattle.window_grouper.specs.Open.{Open};

    ghost Value = { Open };

    ghost use Rattle.window_grouper.specs.Placing.{shown, IsSound};

    ghost view = { λ o. record { window = o.window; held = shown o.groups.items } };

    ghost invariant = { λ o. IsSound o.window o.given o.newest (shown o.groups.items) };
}

impl OpenGroups {
    /// No group. `window` is in nanoseconds. It takes no memory.
    pub fn new(alloc: Global, window: u64) -> Self
        ensures { HasPlaced result window [] [] 0 }
    {
        OpenGroups {
            window,
            groups: VecDeque::new(alloc),
            newest: Newest::new(alloc),
            given: 0,
        }
    }

    /// The window in nanoseconds.
    pub fn window(&self) -> u64
        ensures { result ≡ self.now.window }
    {
        self.window
    }

    /// Places a summary that is behind all that were placed: in the newest group of its key where its
    /// time is in that group's window, and else in a group of its own. The only refusal is want of
    /// memory, and then the groups are as they were.
    pub fn place(&mut self, s: &Summary) -> Result<(), OutOfMemory>
        ensures window { self.new.window ≡ self.old.window }
        ensures grown { OnOk result (HaveBegun s.now.at.time self.old.held → self.new.held ≡ placed self.old.window s.now self.old.held) }
        ensures kept { OnErr result (self.new ≡ self.old) }
        ensures placed { OnOk result ((window : ℕ) (front : List Summary) (given : List Copies) (time : ℕ) →
            HasPlaced self.old window front given time → time ≤ s.now.at.time → InStampOrder (front ++ s.now ∷ []) →
            HasPlaced self.new window (front ++ s.now ∷ []) given time) }
    {
        let Ok(()) = place(
            &mut self.groups,
            &mut self.newest,
            self.given,
            self.window,
            s,
        ) else {
            return Err(OutOfMemory);
        };
        Ok(())
    }

    /// The first group that has begun, where its window is over at `time`: its first's time plus the
    /// window is below it. None exactly where no group is held or the first's window is not over. It
    /// takes no memory.
    pub fn next_closed(&mut self, time: u64) -> Option<Group>
        ensures window { self.new.window ≡ self.old.window }
        ensures first { IfSome result (λ group. self.old.held ≡ copies_of group ∷ self.new.held) }
        ensures over { IfSome result (λ _. FirstIsOver self.old.window time self.old.held) }
        ensures none { IfNone result (FirstIsOpen self.old.window time self.old.held) }
        ensures unchanged { IfNone result (self.new ≡ self.old) }
        ensures gives { (window : ℕ) (front : List Summary) (given : List Copies) (before : ℕ) →
            HasPlaced self.old window front given before → before ≤ time →
            IfSome result (λ group. HasPlaced self.new window front (given ++ copies_of group ∷ []) time) }
        ensures kept { (window : ℕ) (front : List Summary) (given : List Copies) (before : ℕ) →
            HasPlaced self.old window front given before → before ≤ time →
            IfNone result (HasPlaced self.new window front given time) }
    {
        if self.is_first_over(time) {
            self.next()
        } else {
            None
        }
    }

    /// Whether there is a first group, and its window is over at `time`.
    fn is_first_over(&self, time: u64) -> bool
        ensures { MatchBool result (FirstIsOver self.now.window time self.now.held)
            (FirstIsOpen self.now.window time self.now.held) }
    {
        match self.groups.front() {
            Some(group) => {
                let first = group.members.get(0);
                time.saturating_sub(first.at.time) > self.window
            }
            None => false,
        }
    }

    /// The first group that has begun, whether or not its window is over: for the end of the list. None
    /// exactly where no group is held. It takes no memory.
    pub fn next(&mut self) -> Option<Group>
        ensures window { self.new.window ≡ self.old.window }
        ensures first { IfSome result (λ group. self.old.held ≡ copies_of group ∷ self.new.held) }
        ensures none { IfNone result (self.old.held ≡ []) }
        ensures unchanged { IfNone result (self.new ≡ self.old) }
        ensures gives { (window : ℕ) (front : List Summary) (given : List Copies) → HasGiven self.old window front given →
            IfSome result (λ group. HasGiven self.new window front (given ++ copies_of group ∷ [])) }
        ensures all { (window : ℕ) (front : List Summary) (given : List Copies) → HasGiven self.old window front given →
            IfNone result (groups_of window front ≡ given) }
    {
        let group = self.groups.pop_front()?;
        self.newest.forget(&group.key, self.given);
        self.given = self.given.wrapping_add(1);
        Some(group)
    }
}
