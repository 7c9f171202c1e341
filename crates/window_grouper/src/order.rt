//! The order of stamps, as a list of positions.

ghost use Rattle.std.specs.Prelude.{◌≡◌, ◌↔◌, IsTrue, IfOk, List, map};
ghost use Rattle.ds_base.specs.Order.{InStampOrder};
ghost use Rattle.ds_base.specs.declared.summary.Summary.{Summary};
ghost use Rattle.window_grouper.specs.Positions.{AreEntries, ArePlaces};
ghost use Rattle.window_grouper.specs.Sorted.{by_stamp, OneOrder, StampsDiffer};
ghost use Rattle.window_grouper.specs.declared.order.Entry.{Entry};

use ds_base::{OutOfMemory, Stamp, SummaryList};
use std::alloc::Global;

/// Whether each stamp is before the one behind it, which `central` asks of its list.
pub fn is_in_stamp_order(list: &SummaryList) -> bool
    ensures { IsTrue result ↔ InStampOrder list.now.items }
{
    for i in 1..list.len() {
        let before = list.get(i - 1).at;
        if before >= list.get(i).at {
            return false;
        }
    }
    true
}

/// The positions of the summaries of a list, counted from 0, in the order of their stamps, which
/// differ. A list of several runs that are in order each, as the captures of a job give it, takes
/// time in the number of summaries times the logarithm of the number of runs. The only refusal is
/// want of memory.
pub fn stamp_order(alloc: Global, list: &SummaryList) -> Result<Vec<u64>, OutOfMemory>
    requires { StampsDiffer list.now.items }
    ensures places { IfOk result (λ order. ArePlaces list.now.items order.items (by_stamp list.now.items)) }
    ensures ordered { IfOk result (λ _. InStampOrder (by_stamp list.now.items)) }
{
    if is_in_stamp_order(list) {
        return places_in_turn(alloc, list);
    }
    let mut entries = entries_of(alloc, list)?;
    let Ok(()) = entries.sort() else {
        return Err(OutOfMemory);
    };
    places_of(alloc, &entries)
}

/// The positions of a list from its first to its last. The only refusal is want of memory.
fn places_in_turn(alloc: Global, list: &SummaryList) -> Result<Vec<u64>, OutOfMemory>
    ensures { IfOk result (λ places. ArePlaces list.now.items places.items list.now.items) }
{
    let Ok(mut places) = Vec::with_capacity(alloc, list.len() as usize) else {
        return Err(OutOfMemory);
    };
    for position in 0..list.len() {
        places.push_reserved(position);
    }
    Ok(places)
}

/// A summary's stamp, and the position of the summary in its list. A summary is large and an entry is
/// not, so entries are what is sorted.
#[derive(Clone, Copy, PartialEq, Eq, PartialOrd, Ord)]
struct Entry {
    /// When and where the summary's record was captured.
    at: Stamp,
    /// Where the summary lies, counted from 0.
    position: u64,
}

/// An entry for each summary of a list, as they lie. The only refusal is want of memory.
fn entries_of(alloc: Global, list: &SummaryList) -> Result<Vec<Entry>, OutOfMemory>
    ensures { IfOk result (λ entries. AreEntries list.now.items entries.items list.now.items) }
{
    let Ok(mut entries) = Vec::with_capacity(alloc, list.len() as usize) else {
        return Err(OutOfMemory);
    };
    for position in 0..list.len() {
        let at = list.get(position).at;
        entries.push_reserved(Entry { at, position });
    }
    Ok(entries)
}

/// The positions of entries, as they lie. The only refusal is want of memory.
fn places_of(alloc: Global, entries: &[Entry]) -> Result<Vec<u64>, OutOfMemory>
    ensures { IfOk result (λ places. places.items ≡ map (λ (e : Entry). e.position) entries.now) }
{
    let Ok(mut places) = Vec::with_capacity(alloc, entries.len()) else {
        return Err(OutOfMemory);
    };
    for entry in entries {
        places.push_reserved(entry.position);
    }
    Ok(places)
}

/// A law: of a list whose stamps differ there is one list in stamp order, and `by_stamp` computes it.
pub fn one_order()
    ensures { (l : List Summary) → OneOrder l }
{}

#[cfg(test)]
mod tests;
