//! The section block (pcapng specification section 4.1).
ghost use Rattle.std.specs.Prelude.{◌≡◌, ◌≤◌, ◌<◌, ◌^◌, length, IfErr, false};
ghost use Rattle.pcapng_reader.specs.Sections.{version_fault};
ghost use Rattle.pcapng_reader.specs.Reader.{is_short_header};

use crate::head::Head;
use capture_bytes::read_half;
use ds_base::{Bad, PcapFault};

/// Looks at a section block, which begins at `place` of the file: whether its version is read.
#[tactic(auto, unfolding(crate::specs::Sections::version_fault))]
pub(crate) fn check_section(head: Head, place: u64, block: &[u8]) -> Result<(), Bad>
    requires whole { 16 ≤ length block.now }
    requires known { place < 2 ^ 62 }
    ensures value { result ≡ version_fault head place block.now }
    ensures long { IfErr result (λ b. is_short_header b.what ≡ false) }
{
    let major = read_half(head.order, block, 12);
    if major == 1 {
        return Ok(());
    }
    Err(Bad {
        at: place + 12,
        what: PcapFault::Version {
            major,
            minor: read_half(head.order, block, 14),
        },
    })
}
