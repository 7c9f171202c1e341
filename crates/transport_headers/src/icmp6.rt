//! The header of ICMPv6.

ghost use Rattle.std.specs.Prelude.{◌≡◌, ◌≤◌, length};
ghost use Rattle.transport_headers.specs.Icmp6.{icmp6_header};

use field_table::{Head, Next};

/// The header of ICMPv6 (RFC 4443 section 2.1) at the start of `bytes`, which end at the current limit.
///
/// `None` where there are fewer than its eight bytes.
pub fn read_icmp6(bytes: &[u8]) -> Option<Head>
    requires { length bytes.now ≤ 262144 }
    ensures header { result ≡ icmp6_header bytes.now }
{
    if bytes.len() < 8 {
        return None;
    }
    Some(Head {
        len: 8,
        next: Next::End,
        limit: bytes.len() as u32,
    })
}
