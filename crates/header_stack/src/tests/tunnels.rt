//! The headers of GRE and VXLAN, from outside.

use field_table::{Head, Kind, Next};
use tunnel_headers::{read_gre, read_vxlan};

fn head(len: u32, kind: Kind, limit: u32) -> Option<Head> {
    let next = Next::Header(kind);
    Some(Head { len, next, limit })
}

#[test]
fn gre_is_as_long_as_its_flags_say(rt: HostRuntime) {
    let mut packet = [0u8; 17];
    packet[2] = 0x08;
    assert_eq!(rt; read_gre(&packet[..4]), head(4, Kind::Ipv4, 4));
    assert_eq!(rt; read_gre(&packet[..3]), None);
    // each of checksum, key and sequence number, then all of them
    packet[0] = 0x80;
    assert_eq!(rt; read_gre(&packet), head(8, Kind::Ipv4, 17));
    packet[0] = 0x20;
    assert_eq!(rt; read_gre(&packet[..8]), head(8, Kind::Ipv4, 8));
    assert_eq!(rt; read_gre(&packet[..7]), None);
    packet[0] = 0x10;
    assert_eq!(rt; read_gre(&packet), head(8, Kind::Ipv4, 17));
    packet[0] = 0xb0;
    assert_eq!(rt; read_gre(&packet), head(16, Kind::Ipv4, 17));
    assert_eq!(rt; read_gre(&packet[..15]), None);
}

#[test]
fn reserved_bits_and_versions_of_gre_are_refused(rt: HostRuntime) {
    for first in [0x40, 0x08, 0x04] {
        assert_eq!(rt; read_gre(&[first, 0x00, 0x86, 0xdd]), None);
    }
    // the bits between them and the version are ignored
    assert_eq!(rt; read_gre(&[0x03, 0xf8, 0x86, 0xdd]), head(4, Kind::Ipv6, 4));
    // version 1 is that of PPTP (RFC 2637)
    assert_eq!(rt; read_gre(&[0x00, 0x01, 0x88, 0x0b]), None);
    assert_eq!(rt; read_gre(&[0x00, 0x04, 0x86, 0xdd]), None);
    // a bridged frame, and a protocol that is not known here
    assert_eq!(rt; read_gre(&[0x00, 0x00, 0x65, 0x58]), head(4, Kind::Eth, 4));
    let end = Some(Head {
        len: 4,
        next: Next::End,
        limit: 4,
    });
    assert_eq!(rt; read_gre(&[0x00, 0x00, 0x88, 0x0b]), end);
}

#[test]
fn vxlan_has_its_flag(rt: HostRuntime) {
    let mut packet = [0x08, 0x00, 0x00, 0x00, 0x00, 0x00, 0x64, 0x00, 0x02];
    assert_eq!(rt; read_vxlan(&packet), head(8, Kind::Eth, 9));
    assert_eq!(rt; read_vxlan(&packet[..8]), head(8, Kind::Eth, 8));
    assert_eq!(rt; read_vxlan(&packet[..7]), None);
    packet[0] = 0xf7;
    assert_eq!(rt; read_vxlan(&packet), None);
}
