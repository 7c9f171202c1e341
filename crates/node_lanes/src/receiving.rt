//! The links in of a node.
ghost use Rattle.std.specs.Prelude.{◌≡◌, ◌<◌, ◌≤◌, ℕ, All, true, false, None, IfOk, IfErr, nat_lt, ◌||◌, length, slice_index_or, slice_set};
ghost use Rattle.credit_link.specs.Ends.{RxSeen, RxStands};
ghost use Rattle.credit_link.specs.Pumping.{RxPumps, RxFails, RxKeeps};
ghost use Rattle.round_law.specs.Links.{HasTakenAll};
ghost use Rattle.round_law.specs.Views.{receiver_view};
ghost use Rattle.node_lanes.specs.Resting.{HasTakenEach, SomeToTake};
ghost use Rattle.node_lanes.specs.Ends.{given_on, InsStand, InsGo};
ghost use Rattle.node_lanes.specs.Passes.{InsPass, InsNoLess, InsAreCalm, InsKeep, InsMeet};

use credit_link::{LinkBad, LinkRx, LinkRxList, NamedRx, NamedTx, NodeFault};
use ghost_list::GhostList;

/// Pumps each link in once. True exactly where a byte moved. A fault names the lowest link of which a pipe
/// failed; links in are counted from 0.
pub fn pump_ins<R: NamedRx, T: NamedTx>(
    ins: &mut LinkRxList<R, T>,
    cut: u32,
) -> Result<bool, NodeFault>
    requires { (length ins.old.items ≤ 64) × (0 < cut) }
    ensures stand { (credits : ℕ) → InsStand credits ins.old.items → InsStand credits ins.new.items }
    ensures goes { InsGo ins.old.items ins.new.items }
    ensures keeps { InsKeep ins.old.items ins.new.items }
    ensures given { (j : ℕ) → given_on ins.new.items j ≡ given_on ins.old.items j }
    ensures quiet { IfOk result (λ _. All (λ (r : RxSeen). r.fault ≡ None) ins.new.items) }
    ensures calm { IfOk result (λ _. InsAreCalm ins.old.items ins.new.items) }
    ensures passes { IfOk result (λ moved. InsPass moved ins.old.items ins.new.items) }
    ensures no_less { IfOk result (λ _. InsNoLess ins.old.items ins.new.items) }
    ensures meets { All (λ (r : RxSeen). r.fault ≡ None) ins.old.items → IfErr result (λ fault. InsMeet ins.old.items ins.new.items fault) }
{
    let mut moved = false;
    let mut counts: GhostList<u32> = GhostList::new();
    'links: for j in 0..ins.len() {
        let count = match pump_at(ins, j, cut) {
            Ok(count) => count,
            Err(bad) => {
                return Err(NodeFault::Link {
                    link: j as u32,
                    bad,
                });
            }
        };
        moved = has_moved(moved, count);
        counts = counts.and(&count);
    }
    Ok(moved)
}

// Whether a byte moved, here or before.
fn has_moved(before: bool, count: u32) -> bool
    ensures { result ≡ before || nat_lt 0 count }
{
    before || count > 0
}

// One link is pumped, and the others are left alone.
fn pump_at<R: NamedRx, T: NamedTx>(
    ins: &mut LinkRxList<R, T>,
    j: u64,
    cut: u32,
) -> Result<u32, LinkBad>
    requires { j < length ins.old.items }
    ensures long { length ins.new.items ≡ length ins.old.items }
    ensures set { (d : RxSeen) → ins.new.items ≡ slice_set ins.old.items j (slice_index_or ins.new.items j d) }
    ensures moved { IfOk result (λ n. (d : RxSeen) → RxPumps (slice_index_or ins.old.items j d) (slice_index_or ins.new.items j d) cut n) }
    ensures failed { (d : RxSeen) → (slice_index_or ins.old.items j d).fault ≡ None → IfErr result (λ bad. RxFails (slice_index_or ins.old.items j d) (slice_index_or ins.new.items j d) bad) }
    ensures kept { (d : RxSeen) → RxKeeps (slice_index_or ins.old.items j d) (slice_index_or ins.new.items j d) }
    ensures fault { IfOk result (λ _. (d : RxSeen) → (slice_index_or ins.new.items j d).fault ≡ None) }
    ensures stands { (d : RxSeen) → RxStands (slice_index_or ins.new.items j d) }
{
    match ins.get_mut(j).pump(cut) {
        Ok(moved) => Ok(moved),
        Err(bad) => Err(bad),
    }
}

/// Whether on each link in Finish was taken and no credit is owed.
pub fn taken_all<R: NamedRx, T: NamedTx>(ins: &LinkRxList<R, T>) -> bool
    ensures all { result ≡ true → HasTakenEach ins.now.items }
    ensures not { result ≡ false → SomeToTake ins.now.items }
{
    'links: for j in 0..ins.len() {
        if !has_taken_all(ins.get(j)) {
            return false;
        }
    }
    true
}

// Whether Finish was taken and no credit is owed.
fn has_taken_all<R: NamedRx, T: NamedTx>(rx: &LinkRx<R, T>) -> bool
    ensures all { result ≡ true → HasTakenAll (receiver_view rx.now) }
    ensures not { result ≡ false → ¬ HasTakenAll (receiver_view rx.now) }
{
    rx.finished() && rx.owed() == 0
}
