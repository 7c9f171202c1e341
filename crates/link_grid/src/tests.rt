//! Two senders and three receivers.
ghost use Rattle.std.specs.Prelude.{◌≡◌, ◌<◌, false};

use crate::link_grid;
use credit_link::{LinkRx, LinkTx, RingRx, RingTx};
use ds_base::OutOfMemory;
use node_frames::Frame;
use std::alloc::Global;
use std::process::Abort;
use std::test::Fail;

/// Whether a frame that is offered at one end comes out at the other.
fn comes_through(
    tx: &mut LinkTx<RingTx, RingRx>,
    rx: &mut LinkRx<RingRx, RingTx>,
    mark: u64,
) -> bool
    requires { tx.old.finished ≡ false }
{
    let frame = Frame::GroupMark { mark };
    if !tx.ready() {
        return false;
    }
    tx.offer(&frame);
    let (Ok(_), Ok(_)) = (tx.pump(64), rx.pump(64)) else {
        return false;
    };
    match rx.pull() {
        Ok(Some(came)) => came == frame,
        _ => false,
    }
}

/// The same of sender `i` and receiver `j`.
fn joins(alloc: Global, i: u64, j: u64) -> Result<bool, OutOfMemory>
    requires { (i < 2) × (j < 3) }
{
    let mut grid = link_grid(alloc, 2, 3, 16)?;
    let row = grid.txs.get_mut(i);
    let column = grid.rxs.get_mut(j);
    Ok(comes_through(row.get_mut(j), column.get_mut(i), 10 * i + j))
}

#[test]
fn each_sender_reaches_each_receiver(rt: HostRuntime) -> Result<(), Fail> {
    let alloc = rt.alloc();
    for i in 0..2 {
        for j in 0..3 {
            assert!(rt; joins(alloc, i, j)?, "{i} {j}");
        }
    }
    Ok(())
}
