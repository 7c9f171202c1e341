//! A ring of bytes, and a look at both of its ends.
ghost use Rattle.std.specs.Prelude.{◌≡◌, ◌≤◌, length, IfOk};
ghost use Rattle.ds_base.specs.Pipes.{PipeSeen};
ghost use Rattle.byte_rings.specs.Rings.{fresh, IsOnRing, Looks};

use crate::{NamedRx, NamedTx, RingRx, RingTx};
use ds_base::{OutOfMemory, PipeRx, PipeTx};
use rtrb::RingBuffer;
use std::alloc::Global;

/// A ring with places for `capacity` bytes, by its two ends. It is refused for want of memory alone.
pub fn byte_ring(alloc: Global, capacity: usize) -> Result<(RingTx, RingRx), OutOfMemory>
    ensures name { IfOk result (λ ends. ⟦<RingTx as NamedTx>⟧.name ends.0 ≡ ⟦<RingRx as NamedRx>⟧.name ends.1) }
    ensures capacity { IfOk result (λ ends. (⟦<RingTx as NamedTx>⟧.name ends.0).capacity ≡ capacity) }
    ensures sending { IfOk result (λ ends. ⟦<RingTx as PipeTx>⟧.seen ends.0 ≡ fresh capacity) }
    ensures receiving { IfOk result (λ ends. ⟦<RingRx as PipeRx>⟧.seen ends.1 ≡ fresh 0) }
{
    match RingBuffer::new(alloc, capacity) {
        Ok((sending, receiving)) => Ok((
            RingTx {
                ring: sending,
                room: capacity,
                silent: 0,
            },
            RingRx {
                ring: receiving,
                silent: 0,
            },
        )),
        Err(_) => Err(OutOfMemory),
    }
}

/// Shows both ends of one ring all its bytes and free places, so that both are sure of all of them. It
/// moves no byte.
pub fn look(tx: &mut RingTx, rx: &mut RingRx)
    requires { ⟦<RingTx as NamedTx>⟧.name tx.old ≡ ⟦<RingRx as NamedRx>⟧.name rx.old }
    ensures tx_name { ⟦<RingTx as NamedTx>⟧.name tx.new ≡ ⟦<RingTx as NamedTx>⟧.name tx.old }
    ensures rx_name { ⟦<RingRx as NamedRx>⟧.name rx.new ≡ ⟦<RingRx as NamedRx>⟧.name rx.old }
    ensures tx { Looks (⟦<RingTx as PipeTx>⟧.seen tx.old) (⟦<RingTx as PipeTx>⟧.seen tx.new) }
    ensures rx { Looks (⟦<RingRx as PipeRx>⟧.seen rx.old) (⟦<RingRx as PipeRx>⟧.seen rx.new) }
    ensures exact { IsOnRing (⟦<RingTx as NamedTx>⟧.name tx.new).capacity (⟦<RingTx as PipeTx>⟧.seen tx.new) (⟦<RingRx as PipeRx>⟧.seen rx.new) }
{
    let room = tx.ring.slots_beside(&mut rx.ring);
    rx.ring.slots_beside(&mut tx.ring);
    tx.room = room;
}
