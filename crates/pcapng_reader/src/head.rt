//! The front of a block (pcapng specification section 3.1): its order of bytes, its type and its total length.
ghost use Rattle.std.specs.Prelude.{◌≡◌, ◌+◌, ◌≤◌, ◌<◌, ◌^◌, length, IfOk, OnOk, true, IfErr, false};
ghost use Rattle.pcapng_reader.specs.Blocks.{padded, order_said, is_lawful_length, head_of, least_length, longest_block};
ghost use Rattle.pcapng_reader.specs.Reader.{is_short_header};

use capture_bytes::{Endian, read_word};
use ds_base::{Bad, PcapFault};

/// The type of a section block, which reads the same in both orders.
pub(crate) const SECTION: u32 = 0x0A0D_0D0A;

/// How many bytes a block has at most.
const LONGEST: u32 = 16_777_216;

/// What the first 12 bytes of a block say.
#[derive(Clone, Copy, Debug)]
pub(crate) struct Head {
    /// The order of the block's numbers.
    pub(crate) order: Endian,
    /// The type of the block.
    pub(crate) kind: u32,
    /// The length of the block in bytes, with its head and its tail.
    pub(crate) total: u32,
}

/// A length rounded up to a multiple of 4.
pub(crate) fn pad(len: u32) -> u64
    ensures { result ≡ padded len }
{
    (u64::from(len) + 3) / 4 * 4
}

/// What the order bytes of a section block say. None: they say neither order.
fn order_by(magic: u32) -> Option<Endian>
    ensures { result ≡ order_said magic }
{
    match magic {
        0x1A2B_3C4D => Some(Endian::Big),
        0x4D3C_2B1A => Some(Endian::Little),
        _ => None,
    }
}

/// How many bytes a block of a type has at least.
fn least(kind: u32) -> u32
    ensures { result ≡ least_length kind }
{
    match kind {
        SECTION => 28,
        1 => 20,
        6 => 32,
        3 => 16,
        _ => 12,
    }
}

/// Reads the first 12 bytes of a block, which begins at `place` of the file in a section of this order.
#[tactic(auto, unfolding(crate::specs::Blocks::head_of))]
pub(crate) fn read_head(section: Option<Endian>, place: u64, bytes: &[u8]) -> Result<Head, Bad>
    requires whole { length bytes.now ≡ 12 }
    requires known { place < 2 ^ 62 }
    ensures value { result ≡ head_of section place bytes.now }
    ensures lawful { IfOk result (λ head. is_lawful_length head.kind head.total ≡ true) }
    ensures bounds { IfOk result (λ head. (12 ≤ head.total) × (head.total ≤ 16777216)) }
    ensures long { IfErr result (λ b. is_short_header b.what ≡ false) }
{
    let order = if read_word(Endian::Big, bytes, 0) == SECTION {
        order_by(read_word(Endian::Big, bytes, 8))
    } else {
        section
    };
    let Some(order) = order else {
        return Err(Bad {
            at: place + 8,
            what: PcapFault::PcapNg,
        });
    };
    let kind = read_word(order, bytes, 0);
    let total = read_word(order, bytes, 4);
    if total % 4 == 0 && total <= LONGEST && total >= least(kind) {
        Ok(Head { order, kind, total })
    } else {
        Err(Bad {
            at: place + 4,
            what: PcapFault::NgLength { len: total },
        })
    }
}
