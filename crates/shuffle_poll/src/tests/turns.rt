//! A shuffle over 17 links of one credit, from which frames are taken in turns drawn from a seed.
ghost use Rattle.std.specs.Prelude.{◌≡◌, ◌<◌, ◌≤◌, ℕ, [], false, length, slice_index_or, OnOk};
ghost use Rattle.credit_link.specs.Ends.{TxSeen};
ghost use Rattle.credit_link.specs.Frames.{has_finish};
ghost use Rattle.shuffle_poll.specs.Lanes.{put_on};
ghost use Rattle.shuffle_poll.specs.Shuffles.{lane_of};

use super::shuffles::{NONE, poll, put_mark, shuffle_of};
use super::{draw, take};
use crate::{Polled, Shuffle, ShuffleFault};
use credit_link::{LinkRxList, RingRx, RingTx};
use node_frames::Frame;
use std::process::Abort;
use std::test::Fail;

const ROWS: u64 = 5;

// Frame n of a link: a GroupMark that goes to all links, and behind it a Mark of its own.
fn nth(link: u32, n: u64) -> Frame {
    if n % 2 == 0 {
        Frame::GroupMark { mark: n / 2 }
    } else {
        Frame::Mark {
            capture: link,
            mark: n / 2,
        }
    }
}

// Puts a GroupMark on all links, on none of which a frame waits.
fn put_group_mark(shuffle: &mut Shuffle<RingTx, RingRx>, n: u64)
    requires links { length shuffle.old.links ≡ 17 }
    requires none_waits { (k : ℕ) → slice_index_or shuffle.old.queues k [] ≡ [] }
    requires unfinished { (k : ℕ) (d : TxSeen) → k < length shuffle.old.links → has_finish (put_on (lane_of shuffle.old k d)) ≡ false }
    ensures links { length shuffle.new.links ≡ 17 }
    ensures room { (k : ℕ) → k < 17 → length (slice_index_or shuffle.new.queues k []) < 2 }
    ensures unfinished { (k : ℕ) (d : TxSeen) → k < length shuffle.new.links → has_finish (put_on (lane_of shuffle.new k d)) ≡ false }
{
    shuffle.put_all(17, Frame::GroupMark { mark: n });
}

// Puts two frames on each link, on none of which a frame waits.
fn put_row(shuffle: &mut Shuffle<RingTx, RingRx>, n: u64)
    requires links { length shuffle.old.links ≡ 17 }
    requires none_waits { (k : ℕ) → slice_index_or shuffle.old.queues k [] ≡ [] }
    requires unfinished { (k : ℕ) (d : TxSeen) → k < length shuffle.old.links → has_finish (put_on (lane_of shuffle.old k d)) ≡ false }
    ensures links { length shuffle.new.links ≡ 17 }
    ensures unfinished { (k : ℕ) (d : TxSeen) → k < length shuffle.new.links → has_finish (put_on (lane_of shuffle.new k d)) ≡ false }
{
    put_group_mark(shuffle, n);
    'links: for link in 0..17 {
        put_mark(shuffle, link, n);
    }
}

// Polls, and puts a row of frames where none waits: how many rows were put then.
fn step(shuffle: &mut Shuffle<RingTx, RingRx>, rows: u64) -> Result<u64, ShuffleFault>
    requires links { length shuffle.old.links ≡ 17 }
    requires unfinished { (k : ℕ) (d : TxSeen) → k < length shuffle.old.links → has_finish (put_on (lane_of shuffle.old k d)) ≡ false }
    ensures links { OnOk result (length shuffle.new.links ≡ 17) }
    ensures unfinished { OnOk result ((k : ℕ) (d : TxSeen) → k < length shuffle.new.links → has_finish (put_on (lane_of shuffle.new k d)) ≡ false) }
{
    let mut needs = NONE;
    match poll(shuffle, &mut needs) {
        Ok(Polled::Ready) => {
            if rows >= ROWS {
                return Ok(rows);
            }
            put_row(shuffle, rows);
            Ok(rows + 1)
        }
        Ok(Polled::Pending) => Ok(rows),
        Err(fault) => Err(fault),
    }
}

// Takes what has come on a link: how many of its frames have come in order, and then one of none of them
// for a frame that is out of order.
fn take_in_turn(ends: &mut LinkRxList<RingRx, RingTx>, link: u32, came: u64) -> u64
    requires { link < length ends.old.items }
    ensures { length ends.new.items ≡ length ends.old.items }
{
    let rx = ends.get_mut(link as u64);
    let _ = rx.pump(4096);
    let came = match take(rx) {
        Some(frame) => {
            if frame == nth(link, came) {
                came.saturating_add(1)
            } else {
                u64::MAX
            }
        }
        None => came,
    };
    let _ = rx.pump(4096);
    came
}

#[test]
fn links_of_one_credit_carry_all_frames_in_order(rt: HostRuntime) -> Result<(), Fail> {
    let (mut shuffle, mut ends) = shuffle_of(rt.alloc(), 17)?;
    let mut came = [0u64; 17];
    let mut rows = 0;
    let mut seed = 27;
    'turns: for _ in 0..1500 {
        rows = step(&mut shuffle, rows)?;
        seed = draw(seed);
        let link = (seed >> 33) % 17;
        came[link as usize] = take_in_turn(&mut ends, link as u32, came[link as usize]);
    }
    assert!(rt; shuffle.settled());
    'links: for link in 0..17 {
        let row = shuffle.row(link, 0, 0, ends.get(link as u64).taken());
        assert_eq!(rt;
            (came[link as usize], row.sent, row.taken),
            (10, 10, 10),
            "link {link}"
        );
        assert_eq!(rt; row.most_held, 1);
    }
    Ok(())
}
