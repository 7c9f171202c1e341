//! The headers of TCP, UDP and ICMP, from outside.

use field_table::{Head, Kind, Next};
use transport_headers::{read_icmp, read_icmp6, read_tcp, read_udp};

fn head(len: u32, next: Next, limit: u32) -> Option<Head> {
    Some(Head { len, next, limit })
}

#[test]
fn tcp_is_as_long_as_its_data_offset_says(rt: HostRuntime) {
    let mut segment = [0u8; 60];
    segment[12] = 0x50;
    assert_eq!(rt; read_tcp(&segment[..20]), head(20, Next::End, 20));
    assert_eq!(rt; read_tcp(&segment), head(20, Next::End, 60));
    assert_eq!(rt; read_tcp(&segment[..19]), None);
    segment[12] = 0xf2;
    assert_eq!(rt; read_tcp(&segment), head(60, Next::End, 60));
    assert_eq!(rt; read_tcp(&segment[..59]), None);
    segment[12] = 0x4f;
    assert_eq!(rt; read_tcp(&segment), None);
    assert_eq!(rt; read_tcp(&[]), None);
}

#[test]
fn vxlan_follows_udp_to_its_port(rt: HostRuntime) {
    // from 1234 to 53, with a word for the length that is too small
    let datagram = [0x04, 0xd2, 0x00, 0x35, 0x00, 0x04, 0x00, 0x00, 0xff];
    assert_eq!(rt; read_udp(&datagram, 4789), head(8, Next::End, 9));
    assert_eq!(rt; read_udp(&datagram, 1234), head(8, Next::End, 9));
    assert_eq!(rt;
        read_udp(&datagram, 53),
        head(8, Next::Header(Kind::Vxlan), 9)
    );
    assert_eq!(rt;
        read_udp(&datagram[..8], 53),
        head(8, Next::Header(Kind::Vxlan), 8)
    );
    assert_eq!(rt; read_udp(&datagram[..7], 53), None);
}

#[test]
fn messages_of_icmp_begin_with_eight_bytes(rt: HostRuntime) {
    let echo = [0x08, 0x00, 0xf7, 0xfd, 0x00, 0x01, 0x00, 0x01, 0x61];
    assert_eq!(rt; read_icmp(&echo), head(8, Next::End, 9));
    assert_eq!(rt; read_icmp(&echo[..8]), head(8, Next::End, 8));
    assert_eq!(rt; read_icmp(&echo[..7]), None);
    let echo = [0x80, 0x00, 0x7f, 0xfd, 0x00, 0x01, 0x00, 0x01, 0x61];
    assert_eq!(rt; read_icmp6(&echo), head(8, Next::End, 9));
    assert_eq!(rt; read_icmp6(&echo[..8]), head(8, Next::End, 8));
    assert_eq!(rt; read_icmp6(&echo[..7]), None);
}
