//! The command `stack`: the headers of each packet, or the value of a field.

use super::captures::{GRE, HEADER, PACKET, VXLAN};
use super::harness::{CALM, ends_ok, run};
use std::alloc::{AllocError, Global};
use std::process::Abort;
use std::test::Fail;
use std::thread::Threads;

/// IPv6 with an ICMP message, and the same with an extension header and a damaged TCP header.
const ICMP6: [u8; 62] = [
    2, 0, 0, 0, 0, 2, 2, 0, 0, 0, 0, 1, 0x86, 0xDD, 0x60, 0, 0, 0, 0, 0, 0x3A, 0x40, 0x20, 1, 0, 0,
    0, 0, 0, 0, 0, 0, 0, 0, 0, 0, 0, 1, 0x20, 1, 0, 0, 0, 0, 0, 0, 0, 0, 0, 0, 0, 0, 0, 2, 0x80, 0,
    0, 0, 0, 0, 0, 0,
];

const EXTENDED: [u8; 82] = [
    2, 0, 0, 0, 0, 2, 2, 0, 0, 0, 0, 1, 0x86, 0xDD, 0x60, 0, 0, 0, 0, 0, 0, 0x40, 0x20, 1, 0, 0, 0,
    0, 0, 0, 0, 0, 0, 0, 0, 0, 0, 1, 0x20, 1, 0, 0, 0, 0, 0, 0, 0, 0, 0, 0, 0, 0, 0, 2, 6, 0, 0, 0,
    0, 0, 0, 0, 0, 0, 0, 0, 0, 0, 0, 0, 0, 0, 0, 0, 0x40, 0, 0, 0, 0, 0, 0, 0,
];

/// The frame with this total length.
fn with_length(length: u8) -> [u8; 42] {
    let mut packet = PACKET;
    packet[17] = length;
    packet
}

/// The frame as a fragment from byte 8 on.
fn fragment() -> [u8; 42] {
    let mut packet = PACKET;
    packet[21] = 1;
    packet
}

/// Puts a record of second 1 at the end of a little-endian file.
fn put(file: &mut Vec<u8>, micro: u32, packet: &[u8]) -> Result<(), AllocError> {
    let len = u32::try_from(packet.len()).unwrap_or(0).to_le_bytes();
    file.extend_from_slice(&1u32.to_le_bytes())?;
    file.extend_from_slice(&micro.to_le_bytes())?;
    file.extend_from_slice(&len)?;
    file.extend_from_slice(&len)?;
    file.extend_from_slice(packet)
}

/// A capture with tunnels, no IP, a wrong length, a short length with bytes behind, and a fragment.
pub(crate) fn tunnels(alloc: Global) -> Result<Vec<u8>, AllocError> {
    let mut file = HEADER.to_vec(alloc)?;
    let mut arp = [0u8; 42];
    arp[..12].copy_from_slice(&PACKET[..12]);
    arp[12..14].copy_from_slice(&[8, 6]);
    let mut padded = [0u8; 60];
    padded[..42].copy_from_slice(&with_length(20));
    put(&mut file, 0, &VXLAN)?;
    put(&mut file, 1, &GRE)?;
    put(&mut file, 2, &arp)?;
    put(&mut file, 3, &with_length(0))?;
    put(&mut file, 4, &padded)?;
    put(&mut file, 5, &fragment())?;
    Ok(file)
}

/// A capture of one packet of this link type.
fn one(alloc: Global, link: u8, packet: &[u8]) -> Result<Vec<u8>, AllocError> {
    let mut file = HEADER.to_vec(alloc)?;
    file[20] = link;
    put(&mut file, 0, packet)?;
    Ok(file)
}

/// A big-endian capture in nanoseconds with the frame.
fn big_endian(alloc: Global) -> Result<Vec<u8>, AllocError> {
    let mut file = [0xA1, 0xB2, 0x3C, 0x4D, 0, 2, 0, 4].to_vec(alloc)?;
    file.extend_from_slice(&[0, 0, 0, 0, 0, 0, 0, 0, 0, 4, 0, 0, 0, 0, 0, 1])?;
    file.extend_from_slice(&[0, 0, 0, 1, 0, 0, 0, 0, 0, 0, 0, 42, 0, 0, 0, 42])?;
    file.extend_from_slice(&PACKET)?;
    Ok(file)
}

pub(crate) const LINES: &str =
    "0 1000000000 eth[0..14] ipv4[14..34] udp[34..42] vxlan[42..50] eth[50..64] ipv4[64..84] udp[84..92]\n1 1000001000 eth[0..14] ipv4[14..34] gre[34..42] ipv4[42..62] udp[62..70]\n2 1000002000 eth[0..14]\n3 1000003000 eth[0..14] ipv4[14..34] udp[34..42]\n4 1000004000 eth[0..14] ipv4[14..34]\n5 1000005000 eth[0..14] ipv4[14..34]\nwhole\n";

const KEYS: &str =
    "0 1000000000 none\n1 1000001000 5\n2 1000002000 none\n3 1000003000 none\n4 1000004000 none\n5 1000005000 none\nwhole\n";

const SOURCES: &str =
    "0 1000000000 10.1.0.1\n1 1000001000 10.0.0.1\n2 1000002000 none\n3 1000003000 10.0.0.1\n4 1000004000 10.0.0.1\n5 1000005000 10.0.0.1\nwhole\n";

const HARDWARE: &str =
    "0 1000000000 02:00:00:00:00:01\n1 1000001000 02:00:00:00:00:03\n2 1000002000 02:00:00:00:00:01\n3 1000003000 02:00:00:00:00:01\n4 1000004000 02:00:00:00:00:01\n5 1000005000 02:00:00:00:00:01\nwhole\n";

fn prints<R: Threads + Sync + Abort>(
    rt: &R,
    alloc: Global,
    line: &str,
    file: &[u8],
    text: &str,
) -> Result<(), AllocError> {
    let left = run(rt, alloc, line, file, CALM)?;
    ends_ok(rt, &left, text.as_bytes());
    Ok(())
}

#[test]
fn each_packet_has_a_line_of_its_headers(rt: HostRuntime) -> Result<(), Fail> {
    let alloc = rt.alloc();
    let file = tunnels(alloc)?;
    for (line, text) in [
        ("stack a", LINES),
        ("stack a --port 4789", LINES),
        ("stack a --field gre[0].key", KEYS),
        ("stack --field=gre[0].key a", KEYS),
        ("stack --port=1 --field ipv4[-1].src a", SOURCES),
        ("stack a --field eth[-1].src", HARDWARE),
    ] {
        prints(&rt, alloc, line, file.as_slice(), text)?;
    }
    Ok(())
}

#[test]
fn files_and_links_of_each_kind_are_printed(rt: HostRuntime) -> Result<(), Fail> {
    let alloc = rt.alloc();
    let mut big = big_endian(alloc)?;
    prints(
        &rt,
        alloc,
        "stack a",
        big.as_slice(),
        "0 1000000000 eth[0..14] ipv4[14..34] udp[34..42]\nwhole\n",
    )?;
    big.truncate(81);
    prints(&rt, alloc, "stack a", big.as_slice(), "cut\n")?;
    prints(&rt, alloc, "stack a", &HEADER, "whole\n")?;
    let rows: [(u8, &[u8], &str); 3] = [
        (
            101,
            &PACKET[14..],
            "0 1000000000 ipv4[0..20] udp[20..28]\nwhole\n",
        ),
        (
            1,
            &ICMP6,
            "0 1000000000 eth[0..14] ipv6[14..54] icmp6[54..62]\nwhole\n",
        ),
        (
            1,
            &EXTENDED,
            "0 1000000000 eth[0..14] ipv6[14..54] ext[54..62]\nwhole\n",
        ),
    ];
    for (link, packet, text) in rows {
        let file = one(alloc, link, packet)?;
        prints(&rt, alloc, "stack a", file.as_slice(), text)?;
    }
    Ok(())
}

#[test]
fn many_lines_are_written_in_order(rt: HostRuntime) -> Result<(), Fail> {
    let alloc = rt.alloc();
    let mut file = HEADER.to_vec(alloc)?;
    let mut text = String::new(alloc);
    for k in 0..3000 {
        put(&mut file, k, &PACKET)?;
        let micro = 1_000_000 + k;
        let line = format!(in alloc; "{k} {micro}000 eth[0..14] ipv4[14..34] udp[34..42]\n")?;
        text.push_str(line.as_str())?;
    }
    text.push_str("whole\n")?;
    prints(&rt, alloc, "stack a", file.as_slice(), text.as_str())?;
    Ok(())
}
