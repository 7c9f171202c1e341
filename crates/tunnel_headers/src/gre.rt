//! The header of GRE.

ghost use Rattle.std.specs.Prelude.{◌≡◌, ◌≤◌, ◌<◌, ◌/◌, ◌%◌, ◌-◌, ◌^◌, length};
ghost use Rattle.tunnel_headers.specs.Gre.{gre_header, kind_by_protocol_type};

use byteorder::{BigEndian, ByteOrder};
use field_table::{Head, Kind, Next};

/// The header of GRE (RFC 2784 section 2.1, RFC 2890 section 2) at the start of `bytes`, which end at
/// the current limit.
///
/// `None` where a bit 1, 4 or 5 is set, where the version is not 0, or where not all of it is there:
/// four bytes, and four more for each of checksum, key and sequence number that is present.
pub fn read_gre(bytes: &[u8]) -> Option<Head>
    requires { length bytes.now ≤ 262144 }
    ensures header { result ≡ gre_header bytes.now }
{
    if bytes.len() < 4 {
        return None;
    }
    let flags = bytes[0];
    let version = bytes[1] % 8;
    let reserved = bit(flags, 1) + bit(flags, 4) + bit(flags, 5);
    let len = 4 + 4 * (bit(flags, 0) + bit(flags, 2) + bit(flags, 3));
    let limit = bytes.len() as u32;
    if reserved != 0 || version != 0 || limit < len {
        return None;
    }
    let protocol_type = BigEndian::read_u16(&bytes[2..]);
    Some(Head {
        len,
        next: kind_by_protocol_type(protocol_type),
        limit,
    })
}

// The bit of a byte with this number, 0 being the most significant.
fn bit(byte: u8, number: u32) -> u32
    requires { number < 8 }
    ensures { result ≡ byte / 2 ^ (7 - number) % 2 }
{
    u32::from((byte >> (7 - number)) % 2)
}

// What stands after a GRE header of this protocol type.
fn kind_by_protocol_type(number: u16) -> Next
    ensures { result ≡ kind_by_protocol_type number }
{
    match number {
        0x0800 => Next::Header(Kind::Ipv4),
        0x86dd => Next::Header(Kind::Ipv6),
        0x6558 => Next::Header(Kind::Eth),
        _ => Next::End,
    }
}
