//! The header of Ethernet.

ghost use Rattle.std.specs.Prelude.{◌≡◌, ◌≤◌, length};
ghost use Rattle.packet_headers.specs.Eth.{eth_header};

use byteorder::{BigEndian, ByteOrder};
use field_table::{Head, kind_by_ethernet_type};

/// The header of Ethernet at the start of `bytes`, which end at the current limit.
///
/// `None` where its 14 bytes are not all there.
pub fn read_eth(bytes: &[u8]) -> Option<Head>
    requires { length bytes.now ≤ 262144 }
    ensures header { result ≡ eth_header bytes.now }
{
    if bytes.len() < 14 {
        return None;
    }
    Some(Head {
        len: 14,
        next: kind_by_ethernet_type(BigEndian::read_u16(&bytes[12..])),
        limit: bytes.len() as u32,
    })
}
