//! Captures in pcapng: `count`, `stack` and `central` over the interfaces of a file.

use super::captures::{B, C, EMPTY, PACKET, file};
use super::harness::{CALM, Named, REPORTS, ends_ok, run, run_over, stops};
use super::reports::{END, LOOP, NONE, ONE, PACKET_LINE, job, report};
use std::alloc::{AllocError, Global};
use std::process::Abort;
use std::test::Fail;
use std::thread::Threads;

/// A little-endian section.
const SECTION: [u8; 28] = [
    0x0A, 0x0D, 0x0D, 0x0A, 28, 0, 0, 0, 0x4D, 0x3C, 0x2B, 0x1A, 1, 0, 0, 0, 0xFF, 0xFF, 0xFF,
    0xFF, 0xFF, 0xFF, 0xFF, 0xFF, 28, 0, 0, 0,
];

/// An interface on Ethernet whose times are microseconds.
const INTERFACE: [u8; 20] = [1, 0, 0, 0, 20, 0, 0, 0, 1, 0, 0, 0, 0, 0, 4, 0, 20, 0, 0, 0];

/// The same of another link type, Linux cooked captures.
const COOKED: [u8; 20] = [
    1, 0, 0, 0, 20, 0, 0, 0, 113, 0, 0, 0, 0, 0, 4, 0, 20, 0, 0, 0,
];

/// An interface on Ethernet whose times are nanoseconds.
const NANOS: [u8; 32] = [
    1, 0, 0, 0, 32, 0, 0, 0, 1, 0, 0, 0, 0, 0, 4, 0, 9, 0, 1, 0, 9, 0, 0, 0, 0, 0, 0, 0, 32, 0, 0,
    0,
];

/// Second 1, and ten microseconds later, in microseconds; second 1 in nanoseconds.
const SECOND: [u8; 4] = [0x40, 0x42, 0x0F, 0];

const LATER: [u8; 4] = [0x4A, 0x42, 0x0F, 0];

const SECOND_IN_NANOS: [u8; 4] = [0, 0xCA, 0x9A, 0x3B];

/// An enhanced packet block of this interface and time: the packet with this time to live.
fn packet(
    alloc: Global,
    interface: u8,
    time: [u8; 4],
    time_to_live: u8,
) -> Result<Vec<u8>, AllocError> {
    let mut block = [6, 0, 0, 0, 76, 0, 0, 0].to_vec(alloc)?;
    block.extend_from_slice(&[interface, 0, 0, 0, 0, 0, 0, 0])?;
    block.extend_from_slice(&time)?;
    block.extend_from_slice(&[42, 0, 0, 0, 42, 0, 0, 0])?;
    let mut bytes = PACKET;
    bytes[22] = time_to_live;
    block.extend_from_slice(&bytes)?;
    block.extend_from_slice(&[0, 0, 76, 0, 0, 0])?;
    Ok(block)
}

/// A file of one section with these interfaces and these blocks behind them.
fn section(alloc: Global, interfaces: &[u8], blocks: &[&[u8]]) -> Result<Vec<u8>, AllocError> {
    let mut bytes = SECTION.to_vec(alloc)?;
    bytes.extend_from_slice(interfaces)?;
    for block in blocks {
        bytes.extend_from_slice(block)?;
    }
    Ok(bytes)
}

/// The plain job over this file of s1 ends Ok with these lines, counts of s1 and end.
fn answers<R: Threads + Sync + Abort>(
    rt: &R,
    alloc: Global,
    bytes: &[u8],
    lines: &str,
    first: &str,
    end: &str,
) -> Result<(), AllocError> {
    let plain = job(alloc, "0", LOOP, "")?;
    let a = bytes.to_vec(alloc)?;
    let b = file(alloc, B)?;
    let c = file(alloc, C)?;
    let named: [Named<'_>; 4] = [
        ("j", plain.as_slice()),
        ("a", a.as_slice()),
        ("b", b.as_slice()),
        ("c", c.as_slice()),
    ];
    let report = report(alloc, lines, [first, ONE, ONE], end)?;
    for line in REPORTS {
        let left = run_over(rt, alloc, line, &named, CALM)?;
        ends_ok(rt, &left, report.as_slice());
    }
    Ok(())
}

#[test]
fn pcapng_and_libpcap_stand_in_one_job(rt: HostRuntime) -> Result<(), Fail> {
    let alloc = rt.alloc();
    let micros = packet(alloc, 0, SECOND, 64)?;
    let plain = section(alloc, &INTERFACE, &[micros.as_slice()])?;
    answers(&rt, alloc, plain.as_slice(), PACKET_LINE, ONE, END)?;
    let nanos = packet(alloc, 0, SECOND_IN_NANOS, 64)?;
    let fine = section(alloc, &NANOS, &[nanos.as_slice()])?;
    answers(&rt, alloc, fine.as_slice(), PACKET_LINE, ONE, END)?;
    // The file without its last byte.
    let mut cut = section(alloc, &INTERFACE, &[micros.as_slice()])?;
    let _last = cut.pop();
    answers(
        &rt,
        alloc,
        cut.as_slice(),
        "G 1000010000 s2 0 key=7 n=2 ok\n",
        "records=0 unmatched=0 late=0 accepted=0 cut",
        "groups=1 summaries=2",
    )?;
    let other = packet(alloc, 1, SECOND, 64)?;
    let unknown = section(alloc, &INTERFACE, &[other.as_slice()])?;
    let declared = job(alloc, "0", LOOP, "")?;
    let b = file(alloc, B)?;
    let c = file(alloc, C)?;
    let named: [Named<'_>; 4] = [
        ("j", declared.as_slice()),
        ("a", unknown.as_slice()),
        ("b", b.as_slice()),
        ("c", c.as_slice()),
    ];
    let left = run_over(&rt, alloc, "central j", &named, CALM)?;
    stops(
        &rt,
        &left,
        2,
        "dshark: capture s1: byte 56: interface 1\n",
        b"",
    );
    Ok(())
}

/// Two captures that are two interfaces of one file.
const BOTH: &str =
    "{\"version\":3,\"captures\":[{\"name\":\"s1\",\"file\":\"a\",\"interface\":0},{\"name\":\"s2\",\"file\":\"a\",\"interface\":1},{\"name\":\"s3\",\"file\":\"c\"}],\"vars\":[{\"name\":\"id\",\"take\":[\"ipv4[-1].id\"]},{\"name\":\"ttl\",\"take\":[\"ipv4[-1].ttl\"]}],\"key\":[\"id\"],\"window\":1000000,\"skew\":0,\"query\":{\"kind\":\"loop\",\"hop\":\"ttl\"}}";

#[test]
fn captures_are_interfaces_of_one_file(rt: HostRuntime) -> Result<(), Fail> {
    let alloc = rt.alloc();
    let first = packet(alloc, 0, SECOND, 64)?;
    let second = packet(alloc, 1, LATER, 63)?;
    let mut interfaces = INTERFACE.to_vec(alloc)?;
    interfaces.extend_from_slice(&INTERFACE)?;
    let two = section(
        alloc,
        interfaces.as_slice(),
        &[first.as_slice(), second.as_slice()],
    )?;
    let c = file(alloc, EMPTY)?;
    let named: [Named<'_>; 3] = [
        ("j", BOTH.as_bytes()),
        ("a", two.as_slice()),
        ("c", c.as_slice()),
    ];
    let report = report(
        alloc,
        "G 1000000000 s1 0 key=7 n=2 ok\n",
        [ONE, ONE, NONE],
        "groups=1 summaries=2",
    )?;
    for line in REPORTS {
        let left = run_over(&rt, alloc, line, &named, CALM)?;
        ends_ok(&rt, &left, report.as_slice());
    }
    Ok(())
}

#[test]
fn one_capture_is_read_as_either_format(rt: HostRuntime) -> Result<(), Fail> {
    let alloc = rt.alloc();
    let block = packet(alloc, 0, SECOND, 64)?;
    let plain = section(alloc, &INTERFACE, &[block.as_slice()])?;
    let cooked = section(alloc, &COOKED, &[block.as_slice()])?;
    let rows: [(&str, &[u8], &str); 3] = [
        (
            "count ipv4[0].id 1000000 a",
            plain.as_slice(),
            "G 1000000000 c 0 key=7 n=1 ok\nC c records=1 unmatched=0 late=0 accepted=1 whole\nE groups=1 summaries=1\n",
        ),
        (
            "stack a",
            plain.as_slice(),
            "0 1000000000 eth[0..14] ipv4[14..34] udp[34..42]\nwhole\n",
        ),
        ("stack a", cooked.as_slice(), "0 1000000000\nwhole\n"),
    ];
    for (line, bytes, text) in rows {
        let left = run(&rt, alloc, line, bytes, CALM)?;
        ends_ok(&rt, &left, text.as_bytes());
    }
    let short: [(&[u8], &str); 3] = [
        (&SECTION[..4], "dshark: capture c: byte 4: short header\n"),
        (
            &[0x0A, 0x0D, 0x0D, 0x0A, 28, 0, 0, 0, 0x4D, 0x3C, 0x2B, 0],
            "dshark: capture c: byte 8: pcapng\n",
        ),
        (&SECTION[..27], "dshark: capture c: byte 27: short header\n"),
    ];
    for (bytes, line) in short {
        let left = run(&rt, alloc, "stack a", bytes, CALM)?;
        stops(&rt, &left, 2, line, b"");
    }
    Ok(())
}
