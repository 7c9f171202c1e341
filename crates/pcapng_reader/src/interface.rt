//! The interface block (pcapng specification section 4.2).
ghost use Rattle.std.specs.Prelude.{◌≡◌, ◌+◌, ◌-◌, ◌≤◌, ◌<◌, ◌^◌, length, true, MatchResult, IfOk, IfErr, false};
ghost use Rattle.pcapng_reader.specs.Interfaces.{interface_said};
ghost use Rattle.pcapng_reader.specs.Reader.{is_short_header};

use crate::head::Head;
use crate::options::find;
use crate::times::is_resolution;
use capture_bytes::{read_half, read_long, read_word};
use ds_base::{Bad, PcapFault};

/// An interface of a section.
#[derive(Clone, Copy, Debug)]
pub(crate) struct Interface {
    /// The link type of its packets.
    pub(crate) link: u32,
    /// How many bytes of a packet are captured at most; 0: all.
    pub(crate) snaplen: u32,
    /// The unit of its times: 10^-resolution seconds below 128, else 2^-(resolution - 128) seconds.
    pub(crate) resolution: u8,
    /// The seconds that are added to its times, as 64 bits of two's complement.
    pub(crate) seconds: u64,
    /// The time of its last packet in nanoseconds, 0 where it has none.
    pub(crate) newest: u64,
}

/// Reads an interface block, which begins at `place` of the file.
#[tactic(auto, unfolding(crate::specs::Interfaces::interface_said))]
pub(crate) fn read_interface(head: Head, place: u64, block: &[u8]) -> Result<Interface, Bad>
    requires whole { (20 ≤ head.total) × (length block.now ≡ head.total) }
    requires known { place < 2 ^ 62 }
    ensures value { result ≡ interface_said head place block.now }
    ensures newest { IfOk result (λ i. i.newest ≡ 0) }
    ensures long { IfErr result (λ b. is_short_header b.what ≡ false) }
{
    let body = &block[..head.total as usize - 4];
    let mut resolution = 6;
    if let Some(at) = find(head.order, body, 16, 9, 1) {
        resolution = block[at];
        if !is_resolution(resolution) {
            return Err(Bad {
                at: place + at as u64,
                what: PcapFault::NgResolution { r: resolution },
            });
        }
    }
    let seconds = match find(head.order, body, 16, 14, 8) {
        Some(at) => read_long(head.order, block, at),
        None => 0,
    };
    Ok(Interface {
        link: u32::from(read_half(head.order, block, 8)),
        snaplen: read_word(head.order, block, 12),
        resolution,
        seconds,
        newest: 0,
    })
}
