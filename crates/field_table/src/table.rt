//! The table of fields: for each kind its rows, in their order.

ghost use Rattle.std.specs.Prelude.{◌≡◌, map};
ghost use Rattle.field_table.specs.Table.{layouts_of, names_of};

use crate::forms::Form::{Addr4, Addr6, Dec, Hex, Mac};
use crate::kind::Kind;
use crate::layout::Layout;
use crate::layout::Start::{At, Checksum, Key, Sequence};

// A row: the field's name, where its first bit is, how many bits it has, and its form.
macro_rules! row {
    ($name:literal, $start:expr, $bits:literal, $form:expr) => {
        ($name, Layout { start: $start, bits: $bits, form: $form })
    };
}

/// Ethernet: destination, source, type.
pub(crate) static ETH: [(&str, Layout); 3] = [
    row!("dst", At(0), 48, Mac),
    row!("src", At(48), 48, Mac),
    row!("type", At(96), 16, Hex),
];

/// A VLAN tag: priority, drop eligible, VLAN identifier, the type after it (IEEE 802.1Q).
pub(crate) static TAG: [(&str, Layout); 4] = [
    row!("pcp", At(0), 3, Dec),
    row!("dei", At(3), 1, Dec),
    row!("vid", At(4), 12, Dec),
    row!("type", At(16), 16, Hex),
];

/// IPv4 (RFC 791 section 3.1).
pub(crate) static IPV4: [(&str, Layout); 12] = [
    row!("version", At(0), 4, Dec),
    row!("ihl", At(4), 4, Dec),
    row!("tos", At(8), 8, Hex),
    row!("len", At(16), 16, Dec),
    row!("id", At(32), 16, Dec),
    row!("flags", At(48), 3, Dec),
    row!("off", At(51), 13, Dec),
    row!("ttl", At(64), 8, Dec),
    row!("proto", At(72), 8, Dec),
    row!("sum", At(80), 16, Hex),
    row!("src", At(96), 32, Addr4),
    row!("dst", At(128), 32, Addr4),
];

/// IPv6 (RFC 8200 section 3).
pub(crate) static IPV6: [(&str, Layout); 8] = [
    row!("version", At(0), 4, Dec),
    row!("class", At(4), 8, Hex),
    row!("flow", At(12), 20, Hex),
    row!("len", At(32), 16, Dec),
    row!("next", At(48), 8, Dec),
    row!("hops", At(56), 8, Dec),
    row!("src", At(64), 128, Addr6),
    row!("dst", At(192), 128, Addr6),
];

/// An extension header of IPv6 (RFC 8200 sections 4.3, 4.4 and 4.6).
pub(crate) static EXT: [(&str, Layout); 2] = [
    row!("next", At(0), 8, Dec),
    row!("hlen", At(8), 8, Dec),
];

/// The fragment header of IPv6 (RFC 8200 section 4.5).
pub(crate) static FRAG: [(&str, Layout); 4] = [
    row!("next", At(0), 8, Dec),
    row!("off", At(16), 13, Dec),
    row!("more", At(31), 1, Dec),
    row!("id", At(32), 32, Dec),
];

/// TCP (RFC 9293 section 3.1); `flags` are the eight control bits.
pub(crate) static TCP: [(&str, Layout); 9] = [
    row!("sport", At(0), 16, Dec),
    row!("dport", At(16), 16, Dec),
    row!("seq", At(32), 32, Dec),
    row!("ack", At(64), 32, Dec),
    row!("off", At(96), 4, Dec),
    row!("flags", At(104), 8, Hex),
    row!("window", At(112), 16, Dec),
    row!("sum", At(128), 16, Hex),
    row!("urg", At(144), 16, Dec),
];

/// UDP (RFC 768).
pub(crate) static UDP: [(&str, Layout); 4] = [
    row!("sport", At(0), 16, Dec),
    row!("dport", At(16), 16, Dec),
    row!("len", At(32), 16, Dec),
    row!("sum", At(48), 16, Hex),
];

/// ICMP (RFC 792) and ICMPv6 (RFC 4443 section 2.1); `rest` is the word after the checksum.
pub(crate) static ICMP: [(&str, Layout); 4] = [
    row!("type", At(0), 8, Dec),
    row!("code", At(8), 8, Dec),
    row!("sum", At(16), 16, Hex),
    row!("rest", At(32), 32, Hex),
];

/// GRE (RFC 2784 section 2, RFC 2890 section 2).
pub(crate) static GRE: [(&str, Layout); 8] = [
    row!("c", At(0), 1, Dec),
    row!("k", At(2), 1, Dec),
    row!("s", At(3), 1, Dec),
    row!("version", At(13), 3, Dec),
    row!("proto", At(16), 16, Hex),
    row!("sum", Checksum, 16, Hex),
    row!("key", Key, 32, Dec),
    row!("seq", Sequence, 32, Dec),
];

/// VXLAN (RFC 7348 section 5).
pub(crate) static VXLAN: [(&str, Layout); 2] = [
    row!("flags", At(0), 8, Hex),
    row!("vni", At(32), 24, Dec),
];

/// The fields of a kind, in the order of their numbers: the name and the layout of each. Here the
/// table is held to the rows that the definitions write out.
pub(crate) fn rows(kind: Kind) -> &'static [(&'static str, Layout)]
    ensures names { map (λ row. row.0.now) result.now ≡ names_of kind }
    ensures layouts { map (λ row. row.1) result.now ≡ layouts_of kind }
{
    match kind {
        Kind::Eth => &ETH,
        Kind::Tag => &TAG,
        Kind::Ipv4 => &IPV4,
        Kind::Ipv6 => &IPV6,
        Kind::Ext => &EXT,
        Kind::Frag => &FRAG,
        Kind::Tcp => &TCP,
        Kind::Udp => &UDP,
        Kind::Icmp | Kind::Icmp6 => &ICMP,
        Kind::Gre => &GRE,
        Kind::Vxlan => &VXLAN,
    }
}
