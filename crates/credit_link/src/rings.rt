//! A link over two rings of one process, and a look at both of its ends.
ghost use Rattle.std.specs.Prelude.{◌≡◌, ◌≤◌, IfOk};
ghost use Rattle.byte_rings.specs.Rings.{IsOnRing, Looks};
ghost use Rattle.credit_link.specs.Ends.{TxStands, RxStands};
ghost use Rattle.credit_link.specs.Joined.{AreOneLink, IsNewLink};

use crate::{LinkRx, LinkTx};
use byte_rings::{RingRx, RingTx, byte_ring, look};
use ds_base::OutOfMemory;
use std::alloc::Global;

/// The two ends of a link of so many credits over rings: 4,096 bytes of data, and a byte for each credit. It
/// is refused for want of memory alone.
pub fn ring_link(
    alloc: Global,
    credits: u32,
) -> Result<(LinkTx<RingTx, RingRx>, LinkRx<RingRx, RingTx>), OutOfMemory>
    requires { (1 ≤ credits) × (credits ≤ 1024) }
    ensures fresh { IfOk result (λ ends. IsNewLink credits ends.0 ends.1) }
    ensures stands { IfOk result (λ ends. TxStands ends.0 × RxStands ends.1) }
{
    let Ok((data_tx, data_rx)) = byte_ring(alloc, 4096) else {
        return Err(OutOfMemory);
    };
    let Ok((credit_tx, credit_rx)) = byte_ring(alloc, credits as usize) else {
        return Err(OutOfMemory);
    };
    let Ok(tx) = LinkTx::new(alloc, data_tx, credit_rx, credits) else {
        return Err(OutOfMemory);
    };
    let Ok(rx) = LinkRx::new(alloc, data_rx, credit_tx, credits) else {
        return Err(OutOfMemory);
    };
    Ok((tx, rx))
}

impl LinkTx<RingTx, RingRx> {
    /// Shows both ends of a link over rings every byte and every free place of its two rings, so that both
    /// are sure of all of them. The ends were made by one call of `ring_link`. It moves no byte. No end of a
    /// ring has ever failed.
    pub fn beside(&mut self, rx: &mut LinkRx<RingRx, RingTx>)
        requires { AreOneLink self.old rx.old }
        ensures tx { self.new ≡ record self.old { forth = self.new.forth; back = self.new.back } }
        ensures rx { rx.new ≡ record rx.old { forth = rx.new.forth; back = rx.new.back } }
        ensures tx_looks { Looks self.old.forth self.new.forth × Looks self.old.back self.new.back }
        ensures rx_looks { Looks rx.old.forth rx.new.forth × Looks rx.old.back rx.new.back }
        ensures data_ring { IsOnRing self.new.forth_name.capacity self.new.forth rx.new.forth }
        ensures calm { (self.new.forth.faults ≡ 0) × (self.new.back.faults ≡ 0) × (rx.new.forth.faults ≡ 0) × (rx.new.back.faults ≡ 0) }
        ensures credit_ring { IsOnRing self.new.back_name.capacity rx.new.back self.new.back }
    {
        look(&mut self.forth, &mut rx.forth);
        look(&mut rx.back, &mut self.back);
    }
}
