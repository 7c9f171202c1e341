//! The header of TCP.

ghost use Rattle.std.specs.Prelude.{◌≡◌, ◌≤◌, length};
ghost use Rattle.transport_headers.specs.Tcp.{tcp_header};

use field_table::{Head, Next};

/// The header of TCP (RFC 9293 section 3.1) at the start of `bytes`, which end at the current limit.
///
/// `None` where its data offset is below five words, or where not all of these words are there.
pub fn read_tcp(bytes: &[u8]) -> Option<Head>
    requires { length bytes.now ≤ 262144 }
    ensures header { result ≡ tcp_header bytes.now }
{
    if bytes.len() < 20 {
        return None;
    }
    let data_offset = bytes[12] / 16;
    let len = 4 * u32::from(data_offset);
    let limit = bytes.len() as u32;
    if data_offset < 5 || limit < len {
        return None;
    }
    Some(Head {
        len,
        next: Next::End,
        limit,
    })
}
