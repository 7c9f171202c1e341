//! The receiving end of a ring.
ghost use Rattle.std.specs.Prelude.{length, true};
ghost use Rattle.rtrb.specs.Ring.{received, known_items};
ghost use Rattle.byte_rings.specs.Rings.{name_of};

use crate::NamedRx;
use crate::sending::heard;
use ds_base::{Failed, PipeRx};
use rtrb::Consumer;

/// The receiving end of a ring. It never fails, and is sure of the bytes that it has seen there.
#[derive(Drop)]
pub struct RingRx {
    pub(crate) ring: Consumer<u8>,
    /// How often in a row it found nothing, up to the end of the type.
    pub(crate) silent: u64,
}

impl PipeRx for RingRx {
    ghost seen = { λ e. record { told = true; bytes = received e.ring; faults = 0; silent = e.silent; sure = length (known_items e.ring) } };

    fn read(&mut self, buf: &mut [u8]) -> Result<usize, Failed> {
        self.receive(buf)
    }
}

impl NamedRx for RingRx {
    ghost name = { λ e. name_of e.ring.end };

    fn receive(&mut self, buf: &mut [u8]) -> Result<usize, Failed> {
        let asked = buf.len();
        let count = self.ring.pop_partial_slice(buf);
        self.silent = heard(self.silent, asked, count);
        Ok(count)
    }
}
