//! The extension headers of IPv6 that state their length.

ghost use Rattle.std.specs.Prelude.{◌≡◌, ◌≤◌, length};
ghost use Rattle.packet_headers.specs.Ext.{ext_header};

use field_table::{Head, kind_by_next_header};

/// An extension header of IPv6 that states its length (RFC 8200 sections 4.3, 4.4 and 4.6) at the
/// start of `bytes`, which end at the current limit.
///
/// `None` where not all of it is there.
pub fn read_ext(bytes: &[u8]) -> Option<Head>
    requires { length bytes.now ≤ 262144 }
    ensures header { result ≡ ext_header bytes.now }
{
    let [next, length, ..] = bytes else {
        return None;
    };
    let len = (*length as usize + 1) * 8;
    if bytes.len() < len {
        return None;
    }
    Some(Head {
        len: len as u32,
        next: kind_by_next_header(*next),
        limit: bytes.len() as u32,
    })
}
