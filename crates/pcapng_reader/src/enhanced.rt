//! The enhanced packet block (pcapng specification section 4.3).
ghost use Rattle.std.specs.Prelude.{◌≡◌, ◌+◌, ◌-◌, ◌≤◌, ◌<◌, ◌^◌, length, IfOk, IfErr, false};
ghost use Rattle.pcapng_reader.specs.Packets.{enhanced_said};
ghost use Rattle.pcapng_reader.specs.Times.{latest};
ghost use Rattle.pcapng_reader.specs.Reader.{is_short_header};

use crate::head::{Head, pad};
use crate::packet::{Found, LONGEST};
use crate::state::State;
use crate::times::{nanoseconds, shifted};
use capture_bytes::read_word;
use ds_base::{Bad, PcapFault};

/// Reads an enhanced packet block.
#[tactic(auto, unfolding(crate::specs::Packets::enhanced_said))]
pub(crate) fn read_enhanced(state: &State, head: Head, block: &[u8]) -> Result<Found, Bad>
    requires whole { (32 ≤ head.total) × (length block.now ≡ head.total) }
    requires known { (state.now.state.place < 2 ^ 62) × (state.now.state.packets < 2 ^ 40) }
    ensures value { result ≡ enhanced_said state.now.state head block.now }
    ensures within { IfOk result (λ f. (f.from + f.len ≤ head.total) × (f.len ≤ 262144)) }
    ensures bounds { IfOk result (λ f. (f.time < latest) × (f.number ≡ state.now.state.packets)) }
    ensures long { IfErr result (λ b. is_short_header b.what ≡ false) }
{
    let number = state.packets();
    let id = read_word(head.order, block, 8);
    let Some(interface) = state.interface(id) else {
        return Err(Bad {
            at: state.place() + 8,
            what: PcapFault::NgInterface { id },
        });
    };
    let len = read_word(head.order, block, 20);
    if len > LONGEST {
        return Err(Bad {
            at: state.place() + 20,
            what: PcapFault::TooLong { number, len },
        });
    }
    if u64::from(head.total) < 32 + pad(len) {
        return Err(Bad {
            at: state.place() + 20,
            what: PcapFault::NgPacket { number, len },
        });
    }
    let high = u64::from(read_word(head.order, block, 12));
    let units = high * (1 << 32) + u64::from(read_word(head.order, block, 16));
    let Some(time) = shifted(nanoseconds(interface.resolution, units), interface.seconds) else {
        return Err(Bad {
            at: state.place() + 12,
            what: PcapFault::NgTime { number },
        });
    };
    Ok(Found {
        number,
        interface: id,
        link: interface.link,
        orig: read_word(head.order, block, 24),
        time,
        from: 28,
        len: len as usize,
    })
}
