//! Which call reads a header of each kind.

ghost use Rattle.std.specs.Prelude.{◌≡◌, ◌≤◌, length, IfSome};
ghost use Rattle.header_stack.specs.Headers.{first_of, header_of};

use field_table::{Head, Kind, Next};
use packet_headers::{read_eth, read_ext, read_frag, read_ipv4, read_ipv6, read_tag};
use transport_headers::{read_icmp, read_icmp6, read_tcp, read_udp};
use tunnel_headers::{read_gre, read_vxlan};

// The header of this kind at the start of `bytes`, which end at the current limit.
#[tactic(auto, unfolding(crate::specs::Headers::header_of))]
pub(crate) fn read_header(port: u16, kind: Kind, bytes: &[u8]) -> Option<Head>
    requires { length bytes.now ≤ 262144 }
    ensures header { result ≡ header_of port kind bytes.now }
    ensures fits { IfSome result (λ head. (head.len ≤ head.limit) × (head.limit ≤ length bytes.now)) }
{
    match kind {
        Kind::Eth => read_eth(bytes),
        Kind::Tag => read_tag(bytes),
        Kind::Ipv4 => read_ipv4(bytes),
        Kind::Ipv6 => read_ipv6(bytes),
        Kind::Ext => read_ext(bytes),
        Kind::Frag => read_frag(bytes),
        Kind::Tcp => read_tcp(bytes),
        Kind::Udp => read_udp(bytes, port),
        Kind::Icmp => read_icmp(bytes),
        Kind::Icmp6 => read_icmp6(bytes),
        Kind::Gre => read_gre(bytes),
        Kind::Vxlan => read_vxlan(bytes),
    }
}

// What a packet of this link type begins with.
pub(crate) fn first(link: u32, bytes: &[u8]) -> Next
    ensures { result ≡ first_of link bytes.now }
{
    match (link, bytes) {
        (1, _) => Next::Header(Kind::Eth),
        (101, [first, ..]) if *first / 16 == 4 => Next::Header(Kind::Ipv4),
        (101, [first, ..]) if *first / 16 == 6 => Next::Header(Kind::Ipv6),
        _ => Next::End,
    }
}
