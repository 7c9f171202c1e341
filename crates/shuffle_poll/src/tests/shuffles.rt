//! Shuffles over links of one credit.
ghost use Rattle.std.specs.Prelude.{◌≡◌, ◌≢◌, ◌<◌, ◌≤◌, ◌+◌, ℕ, [], false, length, slice_index_or, IfOk, OnOk};
ghost use Rattle.credit_link.specs.Ends.{TxSeen};
ghost use Rattle.credit_link.specs.Frames.{has_finish};
ghost use Rattle.shuffle_poll.specs.declared.needs.Polled.TheVariants.{Ready};
ghost use Rattle.shuffle_poll.specs.Lanes.{put_on};
ghost use Rattle.shuffle_poll.specs.Shuffles.{lane_of};

use crate::{Needs, Polled, Shuffle, ShuffleFault};
use credit_link::{LinkRxList, LinkTxList, RingRx, RingTx, ring_link};
use ds_base::OutOfMemory;
use node_frames::Frame;
use std::alloc::Global;
use std::process::Abort;
use std::test::Fail;

// One link of one credit more, on which nothing was offered.
fn add_link(
    alloc: Global,
    links: &mut LinkTxList<RingTx, RingRx>,
    ends: &mut LinkRxList<RingRx, RingTx>,
) -> Result<(), OutOfMemory>
    requires { (k : ℕ) (d : TxSeen) → k < length links.old.items → (slice_index_or links.old.items k d).offered ≡ [] }
    ensures none_offered { OnOk result ((k : ℕ) (d : TxSeen) → k < length links.new.items → (slice_index_or links.new.items k d).offered ≡ []) }
    ensures one_more { OnOk result (length links.new.items ≡ length links.old.items + 1) }
    ensures one_end_more { OnOk result (length ends.new.items ≡ length ends.old.items + 1) }
{
    let (tx, rx) = ring_link(alloc, 1)?;
    let Ok(()) = links.push(tx) else {
        return Err(OutOfMemory);
    };
    let Ok(()) = ends.push(rx) else {
        return Err(OutOfMemory);
    };
    Ok(())
}

// A shuffle over so many links of one credit, and their other ends.
pub(super) fn shuffle_of(
    alloc: Global,
    count: u64,
) -> Result<(Shuffle<RingTx, RingRx>, LinkRxList<RingRx, RingTx>), OutOfMemory>
    requires { (1 ≤ count) × (count ≤ 17) }
    ensures links { IfOk result (λ made. (length made.0.links ≡ count) × (length made.1.items ≡ count)) }
    ensures none_waits { IfOk result (λ made. (k : ℕ) → slice_index_or made.0.queues k [] ≡ []) }
    ensures unfinished { IfOk result (λ made. (k : ℕ) (d : TxSeen) → k < count → has_finish (put_on (lane_of made.0 k d)) ≡ false) }
{
    let mut links = LinkTxList::new(alloc);
    let mut ends = LinkRxList::new(alloc);
    'links: for _ in 0..count {
        add_link(alloc, &mut links, &mut ends)?;
    }
    match Shuffle::new(alloc, links) {
        Ok(shuffle) => Ok((shuffle, ends)),
        Err(_) => Err(OutOfMemory),
    }
}

// Puts a Mark of its own number on a link.
pub(super) fn put_mark(shuffle: &mut Shuffle<RingTx, RingRx>, link: u32, n: u64)
    requires room { (link < length shuffle.old.links) × (length (slice_index_or shuffle.old.queues link []) < 2) }
    requires unfinished { (k : ℕ) (d : TxSeen) → k < length shuffle.old.links → has_finish (put_on (lane_of shuffle.old k d)) ≡ false }
    ensures links { length shuffle.new.links ≡ length shuffle.old.links }
    ensures others { (k : ℕ) → k ≢ link → slice_index_or shuffle.new.queues k [] ≡ slice_index_or shuffle.old.queues k [] }
    ensures unfinished { (k : ℕ) (d : TxSeen) → k < length shuffle.new.links → has_finish (put_on (lane_of shuffle.new k d)) ≡ false }
{
    shuffle.put(
        link,
        Frame::Mark {
            capture: link,
            mark: n,
        },
    );
}

// Polls with a cut of 4,096 bytes.
pub(super) fn poll(
    shuffle: &mut Shuffle<RingTx, RingRx>,
    needs: &mut Needs,
) -> Result<Polled, ShuffleFault>
    requires unfinished { (k : ℕ) (d : TxSeen) → k < length shuffle.old.links → has_finish (put_on (lane_of shuffle.old k d)) ≡ false }
    ensures links { length shuffle.new.links ≡ length shuffle.old.links }
    ensures ready { IfOk result (λ polled. polled ≡ Ready → (k : ℕ) → slice_index_or shuffle.new.queues k [] ≡ []) }
    ensures unfinished { (k : ℕ) (d : TxSeen) → k < length shuffle.new.links → has_finish (put_on (lane_of shuffle.new k d)) ≡ false }
{
    shuffle.poll(4096, needs)
}

pub(super) const NONE: Needs = Needs {
    credit: 0,
    room: 0,
    moved: false,
};

#[test]
fn a_frame_waits_for_the_one_credit(rt: HostRuntime) -> Result<(), Fail> {
    let (mut shuffle, _ends) = shuffle_of(rt.alloc(), 2)?;
    let mut needs = NONE;
    put_mark(&mut shuffle, 0, 1);
    let Ok(Polled::Ready) = poll(&mut shuffle, &mut needs) else {
        return Err(Fail::from("a frame waits where there is a credit"));
    };
    assert_eq!(rt; (needs.credit, needs.room), (0, 0));
    put_mark(&mut shuffle, 0, 2);
    assert_eq!(rt; poll(&mut shuffle, &mut needs), Ok(Polled::Pending));
    assert_eq!(rt; (needs.credit, needs.room), (1, 0));
    Ok(())
}
