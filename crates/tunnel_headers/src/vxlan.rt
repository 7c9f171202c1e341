//! The header of VXLAN.

ghost use Rattle.std.specs.Prelude.{◌≡◌, ◌≤◌, length};
ghost use Rattle.tunnel_headers.specs.Vxlan.{vxlan_header};

use field_table::{Head, Kind, Next};

/// The header of VXLAN (RFC 7348 section 5) at the start of `bytes`, which end at the current limit.
/// An Ethernet frame stands after it.
///
/// `None` where its flag I is not set, or where there are fewer than its eight bytes.
pub fn read_vxlan(bytes: &[u8]) -> Option<Head>
    requires { length bytes.now ≤ 262144 }
    ensures header { result ≡ vxlan_header bytes.now }
{
    if bytes.len() < 8 || bytes[0] / 8 % 2 == 0 {
        return None;
    }
    Some(Head {
        len: 8,
        next: Next::Header(Kind::Eth),
        limit: bytes.len() as u32,
    })
}
