//! Which kind of header a type, a protocol or a port announces.

ghost use Rattle.std.specs.Prelude.{◌≡◌};
ghost use Rattle.field_table.specs.NextKinds.{kind_by_ethernet_type, kind_by_next_header, kind_by_protocol};

use crate::head::Next;
use crate::kind::Kind;

/// What the type of an Ethernet header or of a tag announces (IEEE 802 numbers; 0x8100 and 0x88A8
/// are tags).
pub fn kind_by_ethernet_type(number: u16) -> Next
    ensures { result ≡ kind_by_ethernet_type number }
{
    match number {
        0x0800 => Next::Header(Kind::Ipv4),
        0x86dd => Next::Header(Kind::Ipv6),
        0x8100 | 0x88a8 => Next::Header(Kind::Tag),
        _ => Next::End,
    }
}

/// What the protocol of an IPv4 header announces.
pub fn kind_by_protocol(number: u8) -> Next
    ensures { result ≡ kind_by_protocol number }
{
    match number {
        1 => Next::Header(Kind::Icmp),
        4 => Next::Header(Kind::Ipv4),
        6 => Next::Header(Kind::Tcp),
        17 => Next::Header(Kind::Udp),
        41 => Next::Header(Kind::Ipv6),
        47 => Next::Header(Kind::Gre),
        _ => Next::End,
    }
}

/// What the next header of IPv6 and of its extension headers announces: 0, 43 and 60 are the
/// hop-by-hop, routing and destination options (RFC 8200 section 4).
pub fn kind_by_next_header(number: u8) -> Next
    ensures { result ≡ kind_by_next_header number }
{
    match number {
        0 | 43 | 60 => Next::Header(Kind::Ext),
        44 => Next::Header(Kind::Frag),
        4 => Next::Header(Kind::Ipv4),
        6 => Next::Header(Kind::Tcp),
        17 => Next::Header(Kind::Udp),
        41 => Next::Header(Kind::Ipv6),
        47 => Next::Header(Kind::Gre),
        58 => Next::Header(Kind::Icmp6),
        _ => Next::End,
    }
}
