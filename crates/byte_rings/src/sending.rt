//! The sending end of a ring.
ghost use Rattle.std.specs.Prelude.{◌≡◌, ◌≤◌, ◌<◌, ◌+◌, ◌-◌, ◌^◌, min, length, true};
ghost use Rattle.rtrb.specs.Ring.{sent, known_free};
ghost use Rattle.byte_rings.specs.Rings.{name_of};

use crate::NamedTx;
use ds_base::{Failed, PipeTx};
use rtrb::Producer;

/// The sending end of a ring. It never fails.
#[derive(Drop)]
pub struct RingTx {
    pub(crate) ring: Producer<u8>,
    /// How many places of the ring are known to be free.
    pub(crate) room: usize,
    /// How often in a row it took nothing, up to the end of the type.
    pub(crate) silent: u64,
    ghost known: { room ≤ known_free ring },
}

impl PipeTx for RingTx {
    ghost seen = { λ e. record { told = true; bytes = sent e.ring; faults = 0; silent = e.silent; sure = e.room } };

    fn write(&mut self, piece: &[u8]) -> Result<usize, Failed> {
        self.send(piece)
    }
}

impl NamedTx for RingTx {
    ghost name = { λ e. name_of e.ring.end };

    fn send(&mut self, piece: &[u8]) -> Result<usize, Failed> {
        let (gone, _) = self.ring.push_partial_slice(piece);
        let count = gone.len();
        self.room = self.room.saturating_sub(count);
        self.silent = heard(self.silent, piece.len(), count);
        Ok(count)
    }
}

// How often in a row nothing moved, once `count` of `asked` bytes did.
pub(crate) fn heard(silent: u64, asked: usize, count: usize) -> u64
    ensures moved { 0 < count → result ≡ 0 }
    ensures silent { count ≡ 0 → 0 < asked → result ≡ min (silent + 1) (2 ^ 64 - 1) }
    ensures unasked { count ≡ 0 → asked ≡ 0 → result ≡ silent }
{
    if count > 0 {
        0
    } else if asked > 0 {
        silent.saturating_add(1)
    } else {
        silent
    }
}
