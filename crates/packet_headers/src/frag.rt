//! The fragment header of IPv6.

ghost use Rattle.std.specs.Prelude.{◌≡◌, ◌≤◌, length};
ghost use Rattle.packet_headers.specs.Frag.{frag_header};

use byteorder::{BigEndian, ByteOrder};
use field_table::{Head, Next, kind_by_next_header};

/// The fragment header of IPv6 (RFC 8200 section 4.5) at the start of `bytes`, which end at the
/// current limit. A later fragment has nothing after it.
///
/// `None` where its 8 bytes are not all there.
pub fn read_frag(bytes: &[u8]) -> Option<Head>
    requires { length bytes.now ≤ 262144 }
    ensures header { result ≡ frag_header bytes.now }
{
    if bytes.len() < 8 {
        return None;
    }
    let next = if BigEndian::read_u16(&bytes[2..]) / 8 == 0 {
        kind_by_next_header(bytes[0])
    } else {
        Next::End
    };
    Some(Head {
        len: 8,
        next,
        limit: bytes.len() as u32,
    })
}
