//! The simple packet block (pcapng specification section 4.4), which is of interface 0.
ghost use Rattle.std.specs.Prelude.{◌≡◌, ◌+◌, ◌-◌, ◌≤◌, ◌<◌, ◌^◌, length, IfOk, IfErr, false};
ghost use Rattle.pcapng_reader.specs.Packets.{simple_said};
ghost use Rattle.pcapng_reader.specs.Times.{latest};
ghost use Rattle.pcapng_reader.specs.Reader.{is_short_header};

use crate::head::Head;
use crate::packet::{Found, LONGEST};
use crate::state::State;
use capture_bytes::read_word;
use ds_base::{Bad, PcapFault};

/// Reads a simple packet block. It states no time: its packet has that of the one before it on its interface.
#[tactic(auto, unfolding(crate::specs::Packets::simple_said))]
pub(crate) fn read_simple(state: &State, head: Head, block: &[u8]) -> Result<Found, Bad>
    requires whole { (16 ≤ head.total) × (length block.now ≡ head.total) }
    requires known { (state.now.state.place < 2 ^ 62) × (state.now.state.packets < 2 ^ 40) }
    ensures value { result ≡ simple_said state.now.state head block.now }
    ensures within { IfOk result (λ f. (f.from + f.len ≤ head.total) × (f.len ≤ 262144)) }
    ensures bounds { IfOk result (λ f. (f.time < latest) × (f.number ≡ state.now.state.packets)) }
    ensures long { IfErr result (λ b. is_short_header b.what ≡ false) }
{
    let number = state.packets();
    let Some(interface) = state.interface(0) else {
        return Err(Bad {
            at: state.place() + 8,
            what: PcapFault::NgInterface { id: 0 },
        });
    };
    let orig = read_word(head.order, block, 8);
    let mut len = orig;
    if interface.snaplen != 0 {
        len = len.min(interface.snaplen);
    }
    len = len.min(head.total - 16);
    if len > LONGEST {
        return Err(Bad {
            at: state.place() + 8,
            what: PcapFault::TooLong { number, len },
        });
    }
    Ok(Found {
        number,
        interface: 0,
        link: interface.link,
        orig,
        time: interface.newest,
        from: 12,
        len: len as usize,
    })
}
