//! Packets from outside, header by header.

use crate::{Place, field_value, header, walk};
use field_table::{Kind, field};
use std::process::Abort;
use std::test::Fail;

// IPv4 and UDP, from 10.0.0.1 to 10.0.0.2, identification 7.
static PLAIN: [u8; 42] = [
    0x02, 0x00, 0x00, 0x00, 0x00, 0x02, 0x02, 0x00, 0x00, 0x00, 0x00, 0x01, 0x08, 0x00, 0x45, 0x00,
    0x00, 0x1c, 0x00, 0x07, 0x00, 0x00, 0x40, 0x11, 0x00, 0x00, 0x0a, 0x00, 0x00, 0x01, 0x0a, 0x00,
    0x00, 0x02, 0x04, 0xd2, 0x00, 0x35, 0x00, 0x08, 0x00, 0x00,
];

// The same inside GRE with the key 5, from 10.1.0.1 to 10.1.0.2.
static KEYED: [u8; 70] = [
    0x02, 0x00, 0x00, 0x00, 0x00, 0x04, 0x02, 0x00, 0x00, 0x00, 0x00, 0x03, 0x08, 0x00, 0x45, 0x00,
    0x00, 0x38, 0x00, 0x01, 0x00, 0x00, 0x40, 0x2f, 0x00, 0x00, 0x0a, 0x01, 0x00, 0x01, 0x0a, 0x01,
    0x00, 0x02, 0x20, 0x00, 0x08, 0x00, 0x00, 0x00, 0x00, 0x05, 0x45, 0x00, 0x00, 0x1c, 0x00, 0x07,
    0x00, 0x00, 0x3f, 0x11, 0x00, 0x00, 0x0a, 0x00, 0x00, 0x01, 0x0a, 0x00, 0x00, 0x02, 0x04, 0xd2,
    0x00, 0x35, 0x00, 0x08, 0x00, 0x00,
];

// The same with its Ethernet header inside VXLAN, network 100.
static TUNNELLED: [u8; 92] = [
    0x02, 0x00, 0x00, 0x00, 0x00, 0x04, 0x02, 0x00, 0x00, 0x00, 0x00, 0x03, 0x08, 0x00, 0x45, 0x00,
    0x00, 0x4e, 0x00, 0x01, 0x00, 0x00, 0x40, 0x11, 0x00, 0x00, 0x0a, 0x01, 0x00, 0x01, 0x0a, 0x01,
    0x00, 0x02, 0xc0, 0x00, 0x12, 0xb5, 0x00, 0x3a, 0x00, 0x00, 0x08, 0x00, 0x00, 0x00, 0x00, 0x00,
    0x64, 0x00, 0x02, 0x00, 0x00, 0x00, 0x00, 0x02, 0x02, 0x00, 0x00, 0x00, 0x00, 0x01, 0x08, 0x00,
    0x45, 0x00, 0x00, 0x1c, 0x00, 0x07, 0x00, 0x00, 0x40, 0x11, 0x00, 0x00, 0x0a, 0x00, 0x00, 0x01,
    0x0a, 0x00, 0x00, 0x02, 0x04, 0xd2, 0x00, 0x35, 0x00, 0x08, 0x00, 0x00,
];

// The headers of a packet of this link type, by their kinds and ends.
fn stands(rt: &impl Abort, link: u32, bytes: &[u8], headers: &[(Kind, u32)]) {
    assert!(rt; bytes.len() <= 262_144);
    let stack = walk(link, bytes, 4789);
    assert_eq!(rt; stack.len() as usize, headers.len());
    let mut from = 0;
    for (i, (kind, to)) in headers.iter().enumerate() {
        let place = stack.place(i as u32);
        assert_eq!(rt;
            place,
            Place {
                kind: *kind,
                from,
                to: *to
            }
        );
        from = *to;
    }
}

#[test]
fn tunnels_are_walked_inwards(rt: HostRuntime) {
    use Kind::{Eth, Gre, Ipv4, Udp, Vxlan};
    let plain = [(Eth, 14), (Ipv4, 34), (Udp, 42)];
    stands(&rt, 1, &PLAIN, &plain);
    let keyed = [(Eth, 14), (Ipv4, 34), (Gre, 42), (Ipv4, 62), (Udp, 70)];
    stands(&rt, 1, &KEYED, &keyed);
    let tunnelled = [
        (Eth, 14),
        (Ipv4, 34),
        (Udp, 42),
        (Vxlan, 50),
        (Eth, 64),
        (Ipv4, 84),
        (Udp, 92),
    ];
    stands(&rt, 1, &TUNNELLED, &tunnelled);
    stands(&rt, 101, &PLAIN[14..], &[(Ipv4, 20), (Udp, 28)]);
    stands(&rt, 101, &PLAIN, &[]);
    stands(&rt, 113, &PLAIN, &[]);
    stands(&rt, 1, &[], &[]);
}

#[test]
fn limits_and_refusals_end_the_stack(rt: HostRuntime) {
    use Kind::{Eth, Ipv4, Udp};
    let mut packet = [0u8; 60];
    packet[..42].copy_from_slice(&PLAIN);
    // ARP is no header that is known
    packet[13] = 0x06;
    stands(&rt, 1, &packet, &[(Eth, 14)]);
    packet[13] = 0x00;
    // a total length of 0 sets no limit, and one of 20 leaves nothing to UDP
    packet[17] = 0;
    stands(&rt, 1, &packet, &[(Eth, 14), (Ipv4, 34), (Udp, 42)]);
    packet[17] = 20;
    stands(&rt, 1, &packet, &[(Eth, 14), (Ipv4, 34)]);
    packet[17] = 19;
    stands(&rt, 1, &packet, &[(Eth, 14)]);
    packet[17] = 28;
    // after the first fragment no header is named
    packet[21] = 1;
    stands(&rt, 1, &packet, &[(Eth, 14), (Ipv4, 34)]);
    packet[21] = 0;
    stands(&rt, 1, &packet[..41], &[(Eth, 14), (Ipv4, 34)]);
    stands(&rt, 1, &packet[..13], &[]);
}

#[test]
fn extension_headers_lead_to_their_next_header(rt: HostRuntime) {
    use Kind::{Eth, Ext, Icmp6, Ipv6, Tcp};
    let mut packet = [0u8; 82];
    packet[12] = 0x86;
    packet[13] = 0xdd;
    packet[14] = 0x60;
    packet[20] = 58;
    stands(&rt, 1, &packet[..62], &[(Eth, 14), (Ipv6, 54), (Icmp6, 62)]);
    // hop-by-hop options of eight bytes, then TCP with a data offset of 4 words, and of 5
    packet[20] = 0;
    packet[54] = 6;
    packet[74] = 0x40;
    stands(&rt, 1, &packet, &[(Eth, 14), (Ipv6, 54), (Ext, 62)]);
    packet[74] = 0x50;
    stands(
        &rt,
        1,
        &packet,
        &[(Eth, 14), (Ipv6, 54), (Ext, 62), (Tcp, 82)],
    );
}

#[test]
fn sixteen_headers_at_most(rt: HostRuntime) {
    let mut packet = [0u8; 80];
    for word in 3..20 {
        packet[4 * word] = 0x81;
    }
    let stack = walk(1, &packet, 4789);
    assert_eq!(rt; stack.len(), 16);
    let last = Place {
        kind: Kind::Tag,
        from: 70,
        to: 74,
    };
    assert_eq!(rt; stack.place(15), last);
}

#[test]
fn indexes_count_from_the_outside_and_from_the_inside(rt: HostRuntime) -> Result<(), Fail> {
    let cases = [
        ("gre[0].key", Some(5)),
        ("gre[0].seq", None),
        ("gre[1].key", None),
        ("ipv4[0].src", Some(0x0a01_0001)),
        ("ipv4[-1].src", Some(0x0a00_0001)),
        ("ipv4[1].src", Some(0x0a00_0001)),
        ("ipv4[-2].src", Some(0x0a01_0001)),
        ("ipv4[2].src", None),
        ("ipv4[-3].src", None),
        ("ipv4[-1].ttl", Some(63)),
        ("tcp[0].sport", None),
    ];
    let stack = walk(1, &KEYED, 4789);
    for (text, number) in cases {
        let f = field(text).ok_or("no field")?;
        assert_eq!(rt; field_value(&stack, &KEYED, &f), number, "{text}");
    }
    let f = field("udp[0].sport").ok_or("no field")?;
    let place = stack.nth(&f).ok_or("no header")?;
    assert_eq!(rt; header(place, &KEYED), &KEYED[62..70]);
    Ok(())
}
