//! The order of stamps, as a list of positions.

ghost use Rattle.std.specs.Prelude.{◌≡◌, IfOk};
ghost use Rattle.ds_base.specs.Order.{InStampOrder};
ghost use Rattle.window_grouper.specs.Positions.{ArePlaces};
ghost use Rattle.window_grouper.specs.Sorted.{by_stamp, StampsDiffer};
ghost use Rattle.lean_order.specs.Stamped.{stamp_there};

use ds_base::{OutOfMemory, Stamp};
use packed_summaries::LeanList;
use std::alloc::Global;

/// The positions of the summaries of a list, counted from 0, in the order of their stamps, which
/// differ. A list of several runs that are in order each, as the captures of a job give it, takes
/// time in the number of summaries times the logarithm of the number of runs. No summary is unpacked,
/// and nothing but the positions is held. The only refusal is want of memory.
pub fn stamp_order(alloc: Global, list: &LeanList) -> Result<Vec<u64>, OutOfMemory>
    requires { StampsDiffer list.now.items }
    ensures places { IfOk result (λ order. ArePlaces list.now.items order.items (by_stamp list.now.items)) }
    ensures ordered { IfOk result (λ _. InStampOrder (by_stamp list.now.items)) }
{
    let mut places = places_in_turn(alloc, list)?;
    let Ok(()) = places.sort_by_key(|place| stamp_there(list, *place)) else {
        return Err(OutOfMemory);
    };
    Ok(places)
}

/// The positions of a list from its first to its last. The only refusal is want of memory.
fn places_in_turn(alloc: Global, list: &LeanList) -> Result<Vec<u64>, OutOfMemory>
    ensures { IfOk result (λ places. ArePlaces list.now.items places.items list.now.items) }
{
    let Ok(mut places) = Vec::with_capacity(alloc, list.len() as usize) else {
        return Err(OutOfMemory);
    };
    for position in 0..list.len() {
        places.push_reserved(position);
    }
    Ok(places)
}

/// The stamp of the summary at a place. A sort asks it of any place, so it answers where there is none too.
fn stamp_there(list: &LeanList, place: u64) -> Stamp
    ensures { result ≡ stamp_there list.now.items place }
{
    if place < list.len() {
        list.stamp_at(place)
    } else {
        Stamp {
            time: 0,
            capture: 0,
            number: 0,
        }
    }
}
