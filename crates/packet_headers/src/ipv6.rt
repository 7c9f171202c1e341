//! The fixed header of IPv6.

ghost use Rattle.std.specs.Prelude.{◌≡◌, ◌≤◌, length};
ghost use Rattle.packet_headers.specs.Ipv6.{ipv6_header};

use byteorder::{BigEndian, ByteOrder};
use field_table::{Head, kind_by_next_header};

/// The fixed header of IPv6 (RFC 8200 section 3) at the start of `bytes`, which end at the current
/// limit. A payload length within the limit gives the new limit.
///
/// `None` where the version is not 6, or where its 40 bytes are not all there.
pub fn read_ipv6(bytes: &[u8]) -> Option<Head>
    requires { length bytes.now ≤ 262144 }
    ensures header { result ≡ ipv6_header bytes.now }
{
    if bytes.len() < 40 || bytes[0] / 16 != 6 {
        return None;
    }
    let payload = BigEndian::read_u16(&bytes[4..]) as usize;
    let end = 40 + payload;
    let limit = if payload != 0 && end < bytes.len() {
        end
    } else {
        bytes.len()
    };
    Some(Head {
        len: 40,
        next: kind_by_next_header(bytes[6]),
        limit: limit as u32,
    })
}
