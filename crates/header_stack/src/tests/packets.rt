//! The headers of Ethernet, tags, IPv4 and IPv6, and each of their limits.

use field_table::{Head, Kind, Next};
use packet_headers::{read_eth, read_ext, read_frag, read_ipv4, read_ipv6, read_tag};

fn head(len: u32, next: Next, limit: u32) -> Option<Head> {
    Some(Head { len, next, limit })
}

// The first `len` bytes of an Ethernet header of this type and two bytes more.
fn eth(high: u8, low: u8, len: usize) -> Option<Head> {
    let bytes = [2, 0, 0, 0, 0, 2, 2, 0, 0, 0, 0, 1, high, low, 0, 0];
    let front = bytes.get(..len)?;
    read_eth(front)
}

// The first `len` bytes of a tag of this type and a byte more.
fn tag(high: u8, low: u8, len: usize) -> Option<Head> {
    let bytes = [0xa0, 0x64, high, low, 0];
    let front = bytes.get(..len)?;
    read_tag(front)
}

// The first `len` of sixty bytes of a datagram with these values of the first byte, the total length
// and the fragment's word.
fn ipv4(first: u8, total: u8, fragment: u8, protocol: u8, len: usize) -> Option<Head> {
    let mut bytes = [0; 60];
    bytes[0] = first;
    bytes[3] = total;
    bytes[7] = fragment;
    bytes[9] = protocol;
    let front = bytes.get(..len)?;
    read_ipv4(front)
}

// The first `len` of 48 bytes of a packet with these values of the first byte and the payload length.
fn ipv6(first: u8, payload: u8, next: u8, len: usize) -> Option<Head> {
    let mut bytes = [0; 48];
    bytes[0] = first;
    bytes[5] = payload;
    bytes[6] = next;
    let front = bytes.get(..len)?;
    read_ipv6(front)
}

// The first `len` of 17 bytes that begin with the options of this many further units.
fn ext(next: u8, units: u8, len: usize) -> Option<Head> {
    let mut bytes = [0; 17];
    bytes[0] = next;
    bytes[1] = units;
    let front = bytes.get(..len)?;
    read_ext(front)
}

// The first `len` bytes of a fragment with this word for its offset and a byte more.
fn frag(next: u8, high: u8, low: u8, len: usize) -> Option<Head> {
    let bytes = [next, 0, high, low, 0, 0, 0, 7, 0];
    let front = bytes.get(..len)?;
    read_frag(front)
}

#[test]
fn ethernet_and_tags_name_what_follows(rt: HostRuntime) {
    let rows = [
        (0x08, 0x00, Next::Header(Kind::Ipv4)),
        (0x86, 0xdd, Next::Header(Kind::Ipv6)),
        (0x81, 0x00, Next::Header(Kind::Tag)),
        (0x88, 0xa8, Next::Header(Kind::Tag)),
        (0x91, 0x00, Next::End),
        (0x08, 0x06, Next::End),
    ];
    for (high, low, next) in rows {
        assert_eq!(rt; eth(high, low, 16), head(14, next, 16));
        assert_eq!(rt; eth(high, low, 14), head(14, next, 14));
        assert_eq!(rt; eth(high, low, 13), None);
        assert_eq!(rt; tag(high, low, 5), head(4, next, 5));
        assert_eq!(rt; tag(high, low, 4), head(4, next, 4));
        assert_eq!(rt; tag(high, low, 3), None);
    }
}

#[test]
fn ipv4_is_as_long_as_it_says_and_names_its_protocol(rt: HostRuntime) {
    let rows = [
        (0x45, 28, 0, 6, 60, head(20, Next::Header(Kind::Tcp), 28)),
        (0x45, 28, 0, 6, 24, head(20, Next::Header(Kind::Tcp), 24)),
        (0x45, 28, 0, 6, 20, head(20, Next::Header(Kind::Tcp), 20)),
        (0x45, 28, 0, 6, 19, None),
        (0x45, 28, 0, 6, 0, None),
        (0x45, 0, 0, 6, 60, head(20, Next::Header(Kind::Tcp), 60)),
        (0x45, 20, 0, 6, 60, head(20, Next::Header(Kind::Tcp), 20)),
        (0x45, 19, 0, 6, 60, None),
        (0x4f, 60, 0, 6, 60, head(60, Next::Header(Kind::Tcp), 60)),
        (0x4f, 60, 0, 6, 59, None),
        (0x4f, 59, 0, 6, 60, None),
        (0x44, 28, 0, 6, 60, None),
        (0x65, 28, 0, 6, 60, None),
        (0x45, 28, 1, 6, 60, head(20, Next::End, 28)),
        (0x45, 28, 0, 1, 60, head(20, Next::Header(Kind::Icmp), 28)),
        (0x45, 28, 0, 4, 60, head(20, Next::Header(Kind::Ipv4), 28)),
        (0x45, 28, 0, 17, 60, head(20, Next::Header(Kind::Udp), 28)),
        (0x45, 28, 0, 41, 60, head(20, Next::Header(Kind::Ipv6), 28)),
        (0x45, 28, 0, 47, 60, head(20, Next::Header(Kind::Gre), 28)),
        (0x45, 28, 0, 58, 60, head(20, Next::End, 28)),
        (0x45, 28, 0, 0, 60, head(20, Next::End, 28)),
    ];
    for (first, total, fragment, protocol, len, expected) in rows {
        assert_eq!(rt; ipv4(first, total, fragment, protocol, len), expected);
    }
}

#[test]
fn ipv6_ends_forty_bytes_after_its_payload_length(rt: HostRuntime) {
    let rows = [
        (0x60, 8, 48, head(40, Next::Header(Kind::Udp), 48)),
        (0x60, 7, 48, head(40, Next::Header(Kind::Udp), 47)),
        (0x60, 9, 48, head(40, Next::Header(Kind::Udp), 48)),
        (0x60, 0, 48, head(40, Next::Header(Kind::Udp), 48)),
        (0x60, 8, 40, head(40, Next::Header(Kind::Udp), 40)),
        (0x60, 8, 39, None),
        (0x45, 8, 48, None),
        (0x75, 8, 48, None),
    ];
    for (first, payload, len, expected) in rows {
        assert_eq!(rt; ipv6(first, payload, 17, len), expected);
    }
}

#[test]
fn ipv6_and_its_extensions_name_what_follows(rt: HostRuntime) {
    let rows = [
        (0, Next::Header(Kind::Ext)),
        (43, Next::Header(Kind::Ext)),
        (60, Next::Header(Kind::Ext)),
        (44, Next::Header(Kind::Frag)),
        (4, Next::Header(Kind::Ipv4)),
        (6, Next::Header(Kind::Tcp)),
        (17, Next::Header(Kind::Udp)),
        (41, Next::Header(Kind::Ipv6)),
        (47, Next::Header(Kind::Gre)),
        (58, Next::Header(Kind::Icmp6)),
        (1, Next::End),
        (59, Next::End),
    ];
    for (number, next) in rows {
        assert_eq!(rt; ipv6(0x60, 8, number, 48), head(40, next, 48));
        assert_eq!(rt; ext(number, 1, 17), head(16, next, 17));
        assert_eq!(rt; ext(number, 0, 8), head(8, next, 8));
        assert_eq!(rt; ext(number, 1, 15), None);
        assert_eq!(rt; ext(number, 0, 1), None);
        // the offset is the first 13 bits of the word, and the three after it do not count
        assert_eq!(rt; frag(number, 0, 7, 9), head(8, next, 9));
        assert_eq!(rt; frag(number, 0, 8, 8), head(8, Next::End, 8));
        assert_eq!(rt; frag(number, 0x80, 0, 8), head(8, Next::End, 8));
        assert_eq!(rt; frag(number, 0, 0, 7), None);
    }
}
