//! The header of UDP.

ghost use Rattle.std.specs.Prelude.{◌≡◌, ◌≤◌, length};
ghost use Rattle.transport_headers.specs.Udp.{udp_header};

use byteorder::{BigEndian, ByteOrder};
use field_table::{Head, Kind, Next};

/// The header of UDP (RFC 768) at the start of `bytes`, which end at the current limit. VXLAN stands
/// after it where it goes to `port`.
///
/// `None` where there are fewer than its eight bytes.
pub fn read_udp(bytes: &[u8], port: u16) -> Option<Head>
    requires { length bytes.now ≤ 262144 }
    ensures header { result ≡ udp_header port bytes.now }
{
    if bytes.len() < 8 {
        return None;
    }
    let destination_port = BigEndian::read_u16(&bytes[2..]);
    let next = if destination_port == port {
        Next::Header(Kind::Vxlan)
    } else {
        Next::End
    };
    Some(Head {
        len: 8,
        next,
        limit: bytes.len() as u32,
    })
}
