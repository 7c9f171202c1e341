//! Groups of summaries that come in any order which the marks of their captures allow.
ghost use Rattle.std.specs.Prelude.{ℕ, Bool, true, false, List, [], ◌++◌, ◌∷◌, ◌≡◌, ◌<◌, ◌≤◌, Some, None, OnOk, OnErr, IfOk, IfSome, IfNone, IsTrue, ◌↔◌, length, set, get_or, replicate};
ghost use Rattle.std.specs.Map.{values_of};
ghost use Rattle.ds_base.specs.Copies.{Copies, copies_of};
ghost use Rattle.ds_base.specs.Fronts.{upto};
ghost use Rattle.ds_base.specs.declared.summary.Summary.{Summary};
ghost use Rattle.watermarks.specs.Least.{least_mark, under};
ghost use Rattle.watermarks.specs.Raised.{raised_to};
ghost use Rattle.window_grouper.specs.Closed.{AreLate, is_closed};
ghost use Rattle.window_grouper.specs.Groups.{groups_of};
ghost use Rattle.window_grouper.specs.Grouping.{IsSettled, MayCome, NoneClosed, OthersFrom, StandsFor, is_past, marked, out_mark, with_group, with_summary};
ghost use Rattle.window_grouper.specs.Sorted.{DiffersFromAll, StampsDiffer, by_stamp};
ghost use Rattle.window_grouper.specs.Waiting.{IsKept, IsTidy, opened};

use crate::open_groups::OpenGroups;
use ds_base::{Group, OutOfMemory, Stamp, Summary};
use std::alloc::Global;
use std::collections::BTreeMap;
use std::marker::Model;
use watermarks::Marks;

/// The groups of the summaries of several captures, each given out once the marks of all captures have
/// passed its window, so that no member of it can come any more.
///
/// A summary waits until the least mark has passed its time. Then it is placed in the order of stamps,
/// so what is grouped here is a list in stamp order, whatever the order in which the summaries came. A
/// grouper holds each summary once: those that wait, and those of the groups that were not given out.
/// A call takes the logarithm of what is held for each summary that it adds or places.
#[derive(Drop)]
pub struct Grouper {
    /// Where a summary that waits takes its memory.
    alloc: Global,
    /// The marks of the captures.
    marks: Marks,
    /// The summaries that were not placed, by their stamps. A summary is large, so what the map moves about
    /// is its box.
    waiting: BTreeMap<Stamp, Box<Summary>>,
    /// The groups of the summaries that were placed. The time of each of these was below the least mark.
    groups: OpenGroups,
}

impl Model for Grouper {
    ghost use Rattle.std.specs.Map.{values_of};
    ghost use Rattle.watermarks.specs.Least.{least_mark};
    ghost use Rattle.window_grouper.specs.Grouping.{Grouping};
    ghost use Rattle.window_grouper.specs.Waiting.{IsTidy, opened, seen};

    ghost Value = { Grouping };

    ghost view = { λ g. seen g.marks g.groups (values_of (opened g.waiting.entries)) };

    ghost invariant = { λ g. IsTidy (least_mark g.marks) g.groups.held (opened g.waiting.entries) };
}

impl Grouper {
    /// A grouper of so many captures, whose marks are 0, by a window in nanoseconds. It takes no memory.
    pub fn new(alloc: Global, captures: u32, window: u64) -> Self
        requires { captures ≤ 64 }
        ensures empty { result ≡ record { window = window; marks = replicate captures (Some 0); held = []; waiting = [] } }
        ensures stands { StandsFor result window [] [] }
    {
        Grouper {
            alloc,
            marks: Marks::new(captures),
            waiting: BTreeMap::new(alloc),
            groups: OpenGroups::new(alloc, window),
        }
    }

    /// Whether a summary with this stamp may be added: its capture has not ended, its time is not below
    /// the capture's mark, and no summary that waits has the stamp. It takes no memory.
    pub fn may_add(&self, at: &Stamp) -> bool
        requires { at.now.capture < length self.now.marks }
        ensures { IsTrue result ↔ (MayCome self.now.marks at.now × DiffersFromAll at.now self.now.waiting) }
    {
        match self.marks.get(at.capture) {
            Some(mark) => mark <= at.time && !self.waiting.contains_key(at),
            None => false,
        }
    }

    /// Adds a summary of a capture that has not ended, whose time is not below the capture's mark and
    /// whose stamp no summary that waits has (`may_add` tests it). The only refusal is want of memory, and then nothing
    /// changes.
    pub fn add(&mut self, s: Summary) -> Result<(), OutOfMemory>
        requires may { MayCome self.old.marks s.at }
        requires apart { DiffersFromAll s.at self.old.waiting }
        ensures marks { self.new.marks ≡ self.old.marks }
        ensures added { OnOk result (self.new ≡ with_summary s self.old) }
        ensures refused { OnErr result (self.new ≡ self.old) }
        ensures stands { OnOk result ((window : ℕ) (added : List Summary) (given : List Copies) →
            StandsFor self.old window added given → StampsDiffer (added ++ s ∷ []) → StandsFor self.new window (added ++ s ∷ []) given) }
    {
        let at = s.at;
        let Ok(held) = Box::new(self.alloc, s) else {
            return Err(OutOfMemory);
        };
        let Ok(_) = self.waiting.insert(at, held) else {
            return Err(OutOfMemory);
        };
        Ok(())
    }

    /// Raises the mark of a capture: no summary of it with a time below `mark` comes any more. It takes
    /// no memory.
    pub fn raise(&mut self, capture: u32, mark: u64)
        requires { capture < length self.old.marks }
        ensures marks { self.new ≡ marked (set self.old.marks capture (raised_to mark (get_or self.old.marks capture None))) self.old }
        ensures stands { (window : ℕ) (added : List Summary) (given : List Copies) →
            StandsFor self.old window added given → StandsFor self.new window added given }
    {
        self.marks.raise(capture, mark);
    }

    /// The capture has ended: no summary of it comes any more. It takes no memory.
    pub fn end(&mut self, capture: u32)
        requires { capture < length self.old.marks }
        ensures marks { self.new ≡ marked (set self.old.marks capture None) self.old }
        ensures stands { (window : ℕ) (added : List Summary) (given : List Copies) →
            StandsFor self.old window added given → StandsFor self.new window added given }
    {
        self.marks.end(capture);
    }

    /// The next group, in the order of the stamps of firsts, whose first's time plus the window is below
    /// the least mark. None exactly where no group that is held is closed so; once all captures have
    /// ended, exactly where none is held, and then all groups of what was added were given out. The only
    /// refusal is want of memory, and then nothing changes.
    pub fn next_closed(&mut self) -> Result<Option<Group>, OutOfMemory>
        ensures marks { self.new.marks ≡ self.old.marks }
        ensures first { IfOk result (λ next. IfSome next (λ group. self.old ≡ with_group (copies_of group) self.new)) }
        ensures closed { IfOk result (λ next. IfSome next (λ group.
            is_closed (is_past self.old.marks) self.old.window (copies_of group) ≡ true)) }
        ensures settled { IfOk result (λ next. IfNone next (IsSettled self.old)) }
        ensures ended { IfOk result (λ next. IfNone next (least_mark self.old.marks ≡ None → self.old.held ≡ [])) }
        ensures unchanged { IfOk result (λ next. IfNone next (self.new ≡ self.old)) }
        ensures refused { OnErr result (self.new ≡ self.old) }
        ensures stands { (window : ℕ) (added : List Summary) (given : List Copies) → StandsFor self.old window added given →
            IfOk result (λ next. IfSome next (λ group. StandsFor self.new window added (given ++ copies_of group ∷ []))) }
        ensures none { (window : ℕ) (added : List Summary) (given : List Copies) → StandsFor self.old window added given →
            IfOk result (λ next. IfNone next (NoneClosed self.old)) }
        ensures all { (window : ℕ) (added : List Summary) (given : List Copies) → StandsFor self.old window added given →
            least_mark self.old.marks ≡ None → IfOk result (λ next. IfNone next (groups_of window (by_stamp added) ≡ given)) }
    {
        let least = self.marks.least();
        place_past(&mut self.waiting, &mut self.groups, least)?;
        Ok(first_closed(&mut self.groups, least))
    }

    /// The least mark minus the window, in nanoseconds and never below 0: once `next_closed` has answered
    /// None, every group that is still to come has a first of at least this time. None exactly when all
    /// captures have ended. It takes no memory.
    pub fn out_mark(&self) -> Option<u64>
        ensures value { result ≡ out_mark (least_mark self.now.marks) self.now.window }
        ensures others { (window : ℕ) (added : List Summary) (given : List Copies) (later : List Summary) →
            StandsFor self.now window added given → IsSettled self.now → AreLate (is_past self.now.marks) later →
            StampsDiffer (added ++ later) → IfSome result (λ mark. OthersFrom mark window (by_stamp (added ++ later)) given) }
    {
        match self.marks.least() {
            Some(mark) => Some(mark.saturating_sub(self.groups.window())),
            None => None,
        }
    }
}

/// Places all summaries that wait and are below the bound, in the order of their stamps. The only refusal
/// is want of memory, and then some of them may be placed, which changes nothing of what is seen.
fn place_past(
    waiting: &mut BTreeMap<Stamp, Box<Summary>>,
    groups: &mut OpenGroups,
    least: Option<u64>,
) -> Result<(), OutOfMemory>
    requires { IsTidy least groups.old.held (opened waiting.old.entries) }
    ensures kept { IsKept least groups.old (opened waiting.old.entries) groups.new (opened waiting.new.entries) }
    ensures none { OnOk result (upto (λ s. under least s.at.time) (values_of (opened waiting.new.entries)) ≡ []) }
{
    'past: while place_first(waiting, groups, least)? {}
    Ok(())
}

/// Places the first summary that waits, where it is below the bound: false exactly where none is.
fn place_first(
    waiting: &mut BTreeMap<Stamp, Box<Summary>>,
    groups: &mut OpenGroups,
    least: Option<u64>,
) -> Result<bool, OutOfMemory>
    requires { IsTidy least groups.old.held (opened waiting.old.entries) }
    ensures kept { IsKept least groups.old (opened waiting.old.entries) groups.new (opened waiting.new.entries) }
    ensures fewer { IfOk result (λ more. more ≡ true → length waiting.new.entries < length waiting.old.entries) }
    ensures none { IfOk result (λ more. more ≡ false → upto (λ s. under least s.at.time) (values_of (opened waiting.new.entries)) ≡ []) }
{
    let Some((_, held)) = waiting.first_key_value() else {
        return Ok(false);
    };
    let s = held.as_ref();
    if is_under(least, s.at.time) {
        groups.place(s)?;
        waiting.pop_first();
        return Ok(true);
    }
    Ok(false)
}

/// Whether a time is below the least mark, or all captures have ended.
fn is_under(least: Option<u64>, time: u64) -> bool
    ensures { result ≡ under least time }
{
    match least {
        Some(mark) => time < mark,
        None => true,
    }
}

/// The first group that is held, where it is closed.
fn first_closed(groups: &mut OpenGroups, least: Option<u64>) -> Option<Group>
    ensures window { groups.new.window ≡ groups.old.window }
    ensures first { IfSome result (λ group. groups.old.held ≡ copies_of group ∷ groups.new.held) }
    ensures closed { IfSome result (λ group. is_closed (under least) groups.old.window (copies_of group) ≡ true) }
    ensures unchanged { IfNone result (groups.new ≡ groups.old) }
    ensures settled { IfNone result (upto (is_closed (under least) groups.old.window) groups.old.held ≡ []) }
    ensures ended { IfNone result (least ≡ None → groups.old.held ≡ []) }
{
    match least {
        Some(mark) => groups.next_closed(mark),
        None => groups.next(),
    }
}
