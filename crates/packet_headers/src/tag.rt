//! VLAN tags.

ghost use Rattle.std.specs.Prelude.{◌≡◌, ◌≤◌, length};
ghost use Rattle.packet_headers.specs.Tag.{tag_header};

use byteorder::{BigEndian, ByteOrder};
use field_table::{Head, kind_by_ethernet_type};

/// A VLAN tag (IEEE 802.1Q) at the start of `bytes`, which end at the current limit: two bytes of
/// control and the type of what stands after them.
///
/// `None` where its 4 bytes are not all there.
pub fn read_tag(bytes: &[u8]) -> Option<Head>
    requires { length bytes.now ≤ 262144 }
    ensures header { result ≡ tag_header bytes.now }
{
    if bytes.len() < 4 {
        return None;
    }
    Some(Head {
        len: 4,
        next: kind_by_ethernet_type(BigEndian::read_u16(&bytes[2..])),
        limit: bytes.len() as u32,
    })
}
