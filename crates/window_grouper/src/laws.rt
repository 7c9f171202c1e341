//! Laws about cuts, groups and orders. Each is a call that does nothing.

ghost use Rattle.std.specs.Prelude.{ℕ, Bool, List};
ghost use Rattle.ds_base.specs.Copies.{Copies};
ghost use Rattle.ds_base.specs.declared.summary.Summary.{Summary};
ghost use Rattle.window_grouper.specs.Closed.{ClosedStay, ShardGroups};
ghost use Rattle.window_grouper.specs.Cut.{OneCut};
ghost use Rattle.window_grouper.specs.Grouping.{ClosedInFront, Grouping, HeldOnce, StampsApart};
ghost use Rattle.window_grouper.specs.Groups.{OneGrouping, AllGrouped};

/// A law: by any window, a list has exactly one cut.
pub fn one_cut()
    ensures { (window : ℕ) (l : List Summary) → OneCut window l }
{}

/// A law: by any window, exactly one list of groups is the groups of a list in stamp order, and
/// `groups_of` computes it.
pub fn one_grouping()
    ensures { (window : ℕ) (l : List Summary) → OneGrouping window l }
{}

/// A law: by any window, each group of a list in stamp order has a member, and its members have its
/// key, stand in stamp order and lie within the window of the first; and the groups have together as
/// many members as the list has summaries.
pub fn all_grouped()
    ensures { (window : ℕ) (l : List Summary) → AllGrouped window l }
{}

/// A law: where a test on times tells which times come no more, the groups of a list that are closed, up
/// to the first that is not, are those of any longer list whose further summaries may still come. So
/// what is closed is a front of the groups of all that comes later, and changes no more.
pub fn closed_stay()
    ensures { (p : ℕ → Bool) (window : ℕ) (l later : List Summary) → ClosedStay p window l later }
{}

/// A law: the groups of the summaries whose keys pass a test are the groups whose keys pass, in the same
/// order. So each shard can be grouped by itself.
pub fn shard_groups()
    ensures { (test : List ℕ → Bool) (window : ℕ) (l : List Summary) → ShardGroups test window l }
{}

/// A law: whatever is added to a grouper later, the groups that are closed now are those that were given
/// out and the closed ones of those held, and they are the first of all groups. So what was given out
/// gains no member, and no group comes before it.
pub fn closed_in_front()
    ensures { (now : Grouping) (window : ℕ) (added : List Summary) (given : List Copies) (later : List Summary) →
        ClosedInFront now window added given later }
{}

/// A law: a grouper holds each summary once. The groups given out, the groups held and the summaries that
/// wait have together as many summaries as were added.
pub fn held_once()
    ensures { (now : Grouping) (window : ℕ) (added : List Summary) (given : List Copies) → HeldOnce now window added given }
{}

/// A law: where the stamps of all that was added and of one summary more differ, no summary that waits
/// has that one's stamp, as `Grouper::add` asks.
pub fn stamps_apart()
    ensures { (now : Grouping) (window : ℕ) (added : List Summary) (given : List Copies) (s : Summary) →
        StampsApart now window added given s }
{}
