//! The header of IPv4.

ghost use Rattle.std.specs.Prelude.{◌≡◌, ◌≤◌, length};
ghost use Rattle.packet_headers.specs.Ipv4.{ipv4_header};

use byteorder::{BigEndian, ByteOrder};
use field_table::{Head, Next, kind_by_protocol};

/// The header of IPv4 (RFC 791 section 3.1) at the start of `bytes`, which end at the current limit.
/// A total length within the limit is the new limit, and a later fragment has nothing after it.
///
/// `None` where the version is not 4, where the header length is below five words or not all of these
/// words are there, and where the total length is not 0 and below the header length.
pub fn read_ipv4(bytes: &[u8]) -> Option<Head>
    requires { length bytes.now ≤ 262144 }
    ensures header { result ≡ ipv4_header bytes.now }
{
    if bytes.len() < 20 {
        return None;
    }
    let len = bytes[0] as usize % 16 * 4;
    let total = BigEndian::read_u16(&bytes[2..]) as usize;
    if bytes[0] / 16 != 4 || len < 20 || bytes.len() < len || (total != 0 && total < len) {
        return None;
    }
    let next = if BigEndian::read_u16(&bytes[6..]) % 0x2000 == 0 {
        kind_by_protocol(bytes[9])
    } else {
        Next::End
    };
    let limit = if total != 0 && total < bytes.len() {
        total
    } else {
        bytes.len()
    };
    Some(Head {
        len: len as u32,
        next,
        limit: limit as u32,
    })
}
