//! A grid of new links.
ghost use Rattle.std.specs.Prelude.{◌≡◌, ◌<◌, ◌≤◌, IfOk, length};
ghost use Rattle.link_grid.specs.Grids.{IsGrid, IsRow};

use credit_link::{LinkRxList, LinkTxList, RingRx, RingTx, ring_link};
use ds_base::{ItemList, OutOfMemory};
use node_lists::{lists_with_room, push_at};
use std::alloc::Global;

/// The ends of links between all senders and all receivers.
#[derive(Drop)]
pub struct LinkGrid {
    /// The sending ends of each sender, in the order of the receivers.
    pub txs: ItemList<LinkTxList<RingTx, RingRx>>,
    /// The receiving ends of each receiver, in the order of the senders.
    pub rxs: ItemList<LinkRxList<RingRx, RingTx>>,
}

/// A new link of so many credits over rings from each of so many senders to each of so many receivers. It is
/// refused for want of memory alone.
pub fn link_grid(
    alloc: Global,
    senders: u32,
    receivers: u32,
    credits: u32,
) -> Result<LinkGrid, OutOfMemory>
    requires { (1 ≤ credits) × (credits ≤ 1024) }
    ensures { IfOk result (λ made. IsGrid credits senders receivers made.txs.items made.rxs.items) }
{
    let mut txs = ItemList::new(alloc);
    let mut rxs = lists_with_room(alloc, receivers, senders as u64)?;
    for _ in 0..senders {
        let row = row_of_links(alloc, &mut rxs, receivers, credits)?;
        let Ok(()) = txs.push(row) else {
            return Err(OutOfMemory);
        };
    }
    Ok(LinkGrid { txs, rxs })
}

// A new link from one more sender to each receiver: its sending ends, whose other ends went behind those that
// the receivers had.
fn row_of_links(
    alloc: Global,
    rxs: &mut ItemList<LinkRxList<RingRx, RingTx>>,
    receivers: u32,
    credits: u32,
) -> Result<LinkTxList<RingTx, RingRx>, OutOfMemory>
    requires credits { (1 ≤ credits) × (credits ≤ 1024) }
    requires receivers { length rxs.old.items ≡ receivers }
    ensures { IfOk result (λ row. IsRow credits receivers rxs.old.items rxs.new.items row.items) }
{
    let mut row = LinkTxList::new(alloc);
    for j in 0..receivers {
        let (tx, rx) = ring_link(alloc, credits)?;
        push_at(rxs, j as u64, rx)?;
        let Ok(()) = row.push(tx) else {
            return Err(OutOfMemory);
        };
    }
    Ok(row)
}
