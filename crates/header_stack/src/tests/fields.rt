//! Texts and numbers of fields, from outside.

use field_table::{Form, field, form, kind_name, print_field, print_value, value};
use std::test::Fail;

// A header of forty bytes that no two fields read alike; as GRE it has all three optional words.
static BYTES: [u8; 40] = [
    0xb5, 0x6c, 0x93, 0xe7, 0x1a, 0x4f, 0xd8, 0x27, 0x7e, 0x05, 0xc9, 0x3b, 0x86, 0xf0, 0x5d, 0x62,
    0xa4, 0x19, 0x8b, 0xde, 0x40, 0x7f, 0x33, 0xec, 0x51, 0x9a, 0x0d, 0xb6, 0x68, 0xf3, 0x2c, 0x95,
    0xaf, 0x14, 0x7b, 0xc2, 0x59, 0xe0, 0x36, 0x8d,
];

// The rows of the table of fields, with their numbers in these bytes.
static ROWS: [(&str, Form, u128); 64] = [
    ("eth[0].dst", Form::Mac, 0xb56c93e71a4f),
    ("eth[0].src", Form::Mac, 0xd8277e05c93b),
    ("eth[0].type", Form::Hex, 0x86f0),
    ("tag[0].pcp", Form::Dec, 0x5),
    ("tag[0].dei", Form::Dec, 0x1),
    ("tag[0].vid", Form::Dec, 0x56c),
    ("tag[0].type", Form::Hex, 0x93e7),
    ("ipv4[0].version", Form::Dec, 0xb),
    ("ipv4[0].ihl", Form::Dec, 0x5),
    ("ipv4[0].tos", Form::Hex, 0x6c),
    ("ipv4[0].len", Form::Dec, 0x93e7),
    ("ipv4[0].id", Form::Dec, 0x1a4f),
    ("ipv4[0].flags", Form::Dec, 0x6),
    ("ipv4[0].off", Form::Dec, 0x1827),
    ("ipv4[0].ttl", Form::Dec, 0x7e),
    ("ipv4[0].proto", Form::Dec, 0x5),
    ("ipv4[0].sum", Form::Hex, 0xc93b),
    ("ipv4[0].src", Form::Addr4, 0x86f05d62),
    ("ipv4[0].dst", Form::Addr4, 0xa4198bde),
    ("ipv6[0].version", Form::Dec, 0xb),
    ("ipv6[0].class", Form::Hex, 0x56),
    ("ipv6[0].flow", Form::Hex, 0xc93e7),
    ("ipv6[0].len", Form::Dec, 0x1a4f),
    ("ipv6[0].next", Form::Dec, 0xd8),
    ("ipv6[0].hops", Form::Dec, 0x27),
    (
        "ipv6[0].src",
        Form::Addr6,
        0x7e05c93b86f05d62a4198bde407f33ec,
    ),
    (
        "ipv6[0].dst",
        Form::Addr6,
        0x519a0db668f32c95af147bc259e0368d,
    ),
    ("ext[0].next", Form::Dec, 0xb5),
    ("ext[0].hlen", Form::Dec, 0x6c),
    ("frag[0].next", Form::Dec, 0xb5),
    ("frag[0].off", Form::Dec, 0x127c),
    ("frag[0].more", Form::Dec, 0x1),
    ("frag[0].id", Form::Dec, 0x1a4fd827),
    ("tcp[0].sport", Form::Dec, 0xb56c),
    ("tcp[0].dport", Form::Dec, 0x93e7),
    ("tcp[0].seq", Form::Dec, 0x1a4fd827),
    ("tcp[0].ack", Form::Dec, 0x7e05c93b),
    ("tcp[0].off", Form::Dec, 0x8),
    ("tcp[0].flags", Form::Hex, 0xf0),
    ("tcp[0].window", Form::Dec, 0x5d62),
    ("tcp[0].sum", Form::Hex, 0xa419),
    ("tcp[0].urg", Form::Dec, 0x8bde),
    ("udp[0].sport", Form::Dec, 0xb56c),
    ("udp[0].dport", Form::Dec, 0x93e7),
    ("udp[0].len", Form::Dec, 0x1a4f),
    ("udp[0].sum", Form::Hex, 0xd827),
    ("icmp[0].type", Form::Dec, 0xb5),
    ("icmp[0].code", Form::Dec, 0x6c),
    ("icmp[0].sum", Form::Hex, 0x93e7),
    ("icmp[0].rest", Form::Hex, 0x1a4fd827),
    ("icmp6[0].type", Form::Dec, 0xb5),
    ("icmp6[0].code", Form::Dec, 0x6c),
    ("icmp6[0].sum", Form::Hex, 0x93e7),
    ("icmp6[0].rest", Form::Hex, 0x1a4fd827),
    ("gre[0].c", Form::Dec, 0x1),
    ("gre[0].k", Form::Dec, 0x1),
    ("gre[0].s", Form::Dec, 0x1),
    ("gre[0].version", Form::Dec, 0x4),
    ("gre[0].proto", Form::Hex, 0x93e7),
    ("gre[0].sum", Form::Hex, 0x1a4f),
    ("gre[0].key", Form::Dec, 0x7e05c93b),
    ("gre[0].seq", Form::Dec, 0x86f05d62),
    ("vxlan[0].flags", Form::Hex, 0xb5),
    ("vxlan[0].vni", Form::Dec, 0x1a4fd8),
];

// The number of the field that a text names in the bytes of a header.
fn number(text: &str, slice: &[u8]) -> Option<u128> {
    let f = field(text)?;
    value(f.kind, f.field, slice)
}

#[test]
fn every_field_has_its_bits_and_its_form(rt: HostRuntime) {
    for (text, printed, bits) in &ROWS {
        assert_eq!(rt; number(text, &BYTES), Some(*bits), "{text}");
        assert_eq!(rt; field(text).map(|f| form(&f)), Some(*printed), "{text}");
    }
}

#[test]
fn the_words_of_gre_stand_where_its_bits_put_them(rt: HostRuntime) {
    let fields = ["gre[0].sum", "gre[0].key", "gre[0].seq"];
    let rows = [
        (0x00, [None, None, None]),
        (0x80, [Some(0x0102), None, None]),
        (0x20, [None, Some(0x01020304), None]),
        (0x10, [None, None, Some(0x01020304)]),
        (0xa0, [Some(0x0102), Some(0x05060708), None]),
        (0x90, [Some(0x0102), None, Some(0x05060708)]),
        (0x30, [None, Some(0x01020304), Some(0x05060708)]),
        (0xb0, [Some(0x0102), Some(0x05060708), Some(0x090a0b0c)]),
        (0x4f, [None, None, None]),
    ];
    for (flags, numbers) in rows {
        let header = [flags, 0, 8, 0, 1, 2, 3, 4, 5, 6, 7, 8, 9, 10, 11, 12];
        assert_eq!(rt; fields.map(|text| number(text, &header)), numbers);
    }
    assert_eq!(rt;
        number(
            "gre[0].seq",
            &[0xb0, 0, 8, 0, 1, 2, 3, 4, 5, 6, 7, 8, 9, 10, 11]
        ),
        None
    );
    assert_eq!(rt; number("gre[0].key", &[]), None);
}

#[test]
fn a_field_that_is_cut_off_has_no_value(rt: HostRuntime) {
    assert_eq!(rt; number("ipv4[0].dst", &BYTES[..20]), Some(0xa4198bde));
    assert_eq!(rt; number("ipv4[0].dst", &BYTES[..19]), None);
    assert_eq!(rt; number("ipv4[0].ttl", &BYTES[..9]), Some(0x7e));
    assert_eq!(rt; number("ipv4[0].ttl", &BYTES[..8]), None);
    assert_eq!(rt; number("tag[0].vid", &BYTES[..1]), None);
    assert_eq!(rt; number("eth[0].dst", &[]), None);
}

#[test]
fn texts_of_fields_are_read_and_printed(rt: HostRuntime) -> Result<(), Fail> {
    let texts = [
        "ipv4[0].id",
        "ipv4[15].id",
        "ipv4[-1].id",
        "ipv4[-16].id",
        "icmp6[9].rest",
        "icmp[10].rest",
        "eth[-9].type",
        "gre[-10].seq",
    ];
    for text in texts {
        let f = field(text).ok_or("refused")?;
        assert_eq!(rt; print_field(rt.alloc(), &f)?.as_str(), text);
        assert!(rt; text.starts_with(kind_name(f.kind)));
    }
    let refused = [
        "",
        "ipv4",
        "ipv4[0]",
        "ipv4[0].",
        "ipv4[0].nothing",
        "ipv4[16].id",
        "ipv4[-0].id",
        "ipv4[-17].id",
        "ipv4[00].id",
        "ipv4[01].id",
        "ipv4[-01].id",
        "ipv4[+1].id",
        "ipv4[].id",
        "ipv4[-].id",
        "ipv4[0]id",
        "ipv4[0]..id",
        "ipv4[0].id ",
        " ipv4[0].id",
        "ipv4[ 0].id",
        "IPv4[0].id",
        "ipv5[0].id",
        "[0].id",
        "icmp6[0].ttl",
        "ipv4[0].id[0].id",
    ];
    for text in refused {
        assert!(rt; field(text).is_none(), "{text}");
    }
    Ok(())
}

#[test]
fn headers_are_counted_from_either_end(rt: HostRuntime) -> Result<(), Fail> {
    for (text, inside, steps) in [
        ("udp[0].len", false, 0),
        ("udp[12].len", false, 12),
        ("udp[-1].len", true, 0),
        ("udp[-16].len", true, 15),
    ] {
        let f = field(text).ok_or("refused")?;
        assert_eq!(rt; (f.inside, f.steps, f.field), (inside, steps, 2));
    }
    Ok(())
}

#[test]
fn numbers_are_printed_in_their_form(rt: HostRuntime) -> Result<(), Fail> {
    let rows = [
        (Form::Dec, 0, "0"),
        (
            Form::Dec,
            u128::MAX,
            "340282366920938463463374607431768211455",
        ),
        (Form::Hex, 0, "0x0"),
        (Form::Hex, 0x0800, "0x800"),
        (Form::Hex, 0x10000000000000000, "0x10000000000000000"),
        (Form::Hex, u128::MAX, "0xffffffffffffffffffffffffffffffff"),
        (Form::Mac, 0x0200000000af, "02:00:00:00:00:af"),
        (Form::Mac, 0xffffffffffff, "ff:ff:ff:ff:ff:ff"),
        (Form::Mac, 0x1000000000000, "281474976710656"),
        (Form::Addr4, 0x0a000001, "10.0.0.1"),
        (Form::Addr4, 0xffffffff, "255.255.255.255"),
        (Form::Addr4, 0x100000000, "4294967296"),
        (Form::Addr6, 1, "0000:0000:0000:0000:0000:0000:0000:0001"),
        (
            Form::Addr6,
            0x20010db8000000000000ff0000428329,
            "2001:0db8:0000:0000:0000:ff00:0042:8329",
        ),
    ];
    for (form, n, text) in rows {
        assert_eq!(rt; print_value(rt.alloc(), form, n)?.as_str(), text);
    }
    Ok(())
}
