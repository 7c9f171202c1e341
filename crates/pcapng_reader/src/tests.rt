//! Files as bytes, by the pcapng specification: read in pieces of several lengths, cut at every byte, and malformed
//! in each place that has a name.
ghost use Rattle.std.specs.Prelude.{◌≡◌, ◌≤◌, ◌<◌, ◌^◌, length, IfOk, IfNone};
ghost use Rattle.pcapng_reader.specs.Reader.{bytes_fed, IsWaiting};

use crate::{NgReader, NgRecord};
use ds_base::{Bad, PcapFault, Tail};
use std::alloc::{AllocError, Global};
use std::process::Abort;
use std::test::Fail;

/// What a packet says beside its bytes: number, interface, time, link, length of the packet, captured length.
#[derive(Clone, Copy, Debug, PartialEq, Eq)]
struct Row(u64, u32, u64, u32, u32, usize);

/// What was read of a file: the packets, and their bytes joined.
#[derive(Debug, Drop)]
struct Packets {
    rows: Vec<Row>,
    bytes: Vec<u8>,
}

const SECTION: &[u8] =
    b"\x0A\x0D\x0D\x0A\x1C\0\0\0\x4D\x3C\x2B\x1A\x01\0\0\0\xFF\xFF\xFF\xFF\xFF\xFF\xFF\xFF\x1C\0\0\0";

const INTERFACE: &[u8] = b"\x01\0\0\0\x14\0\0\0\x01\0\0\0\0\0\x04\0\x14\0\0\0";

const HEAD: &[u8] = b"\x06\0\0\0\x4C\0\0\0\0\0\0\0\0\0\0\0\x40\x42\x0F\0\x2A\0\0\0\x2A\0\0\0";

const TAIL: &[u8] = b"\0\0\x4C\0\0\0";

const BIG_SECTION: &[u8] =
    b"\x0A\x0D\x0D\x0A\0\0\0\x1C\x1A\x2B\x3C\x4D\0\x01\0\x05\xFF\xFF\xFF\xFF\xFF\xFF\xFF\xFF\0\0\0\x1C";

const BIG_INTERFACE: &[u8] = b"\0\0\0\x01\0\0\0\x14\0\x65\0\0\0\x04\0\0\0\0\0\x14";

const BIG_HEAD: &[u8] = b"\0\0\0\x06\0\0\0\x4C\0\0\0\0\0\0\0\0\0\x0F\x42\x40\0\0\0\x2A\0\0\0\x2B";

const BIG_TAIL: &[u8] = b"\0\0\0\0\0\x4C";

/// A packet of 42 bytes: Ethernet, IPv4 with id 7 and TTL 64, UDP.
const PACKET: &[u8; 42] = b"\x02\0\0\0\0\x02\x02\0\0\0\0\x01\x08\x00\
    \x45\x00\x00\x1C\x00\x07\x00\x00\x40\x11\x00\x00\x0A\x00\x00\x01\x0A\x00\x00\x02\
    \x04\xD2\x00\x35\x00\x08\x00\x00";

fn row_of(record: NgRecord<'_>) -> Row {
    Row(
        record.number,
        record.interface,
        record.time,
        record.link,
        record.orig,
        record.bytes.len(),
    )
}

/// Takes all packets that are there, and the malformed place after them.
fn drain(reader: &mut NgReader, packets: &mut Packets) -> Result<Option<Bad>, AllocError>
    ensures fed { bytes_fed reader.new ≡ bytes_fed reader.old }
    ensures waiting { IfOk result (λ o. IfNone o (IsWaiting reader.new)) }
{
    loop {
        let (row, bytes) = match reader.next() {
            Ok(Some(record)) => (row_of(record), record.bytes),
            Ok(None) => return Ok(None),
            Err(bad) => return Ok(Some(bad)),
        };
        packets.rows.push(row)?;
        packets.bytes.extend_from_slice(bytes)?;
    }
}

/// Reads a whole file in pieces.
fn read_file(
    alloc: Global,
    bytes: &[u8],
    piece: usize,
    packets: &mut Packets,
) -> Result<Result<Tail, Bad>, AllocError>
    requires some { 1 ≤ piece }
    requires room { length bytes.now < 2 ^ 62 }
{
    let mut reader = NgReader::new(alloc);
    let mut at = 0;
    while at < bytes.len() {
        let end = at + piece.min(bytes.len() - at);
        let Ok(()) = reader.feed(&bytes[at..end]) else {
            return Err(AllocError);
        };
        if let Some(bad) = drain(&mut reader, packets)? {
            return Ok(Err(bad));
        }
        at = end;
    }
    Ok(reader.finish())
}

/// A file of these parts.
fn joined(alloc: Global, parts: &[&[u8]]) -> Result<Vec<u8>, AllocError> {
    let mut file = Vec::new(alloc);
    for part in parts {
        file.extend_from_slice(part)?;
    }
    Ok(file)
}

/// A file of these parts holds these packets, in pieces of any length.
fn holds(rt: &impl Abort, alloc: Global, parts: &[&[u8]], rows: &[Row]) -> Result<(), AllocError> {
    let file = joined(alloc, parts)?;
    assert!(rt; file.len() < 1000);
    for piece in [1, 2, 3, 7, 16, 4096] {
        let mut packets = Packets {
            rows: Vec::new(alloc),
            bytes: Vec::new(alloc),
        };
        let end = read_file(alloc, file.as_slice(), piece, &mut packets)?;
        let records = rows.len() as u64;
        assert_eq!(rt;
            end,
            Ok(Tail {
                records,
                cut: false
            }),
            "pieces of {piece}"
        );
        assert_eq!(rt; packets.rows.as_slice(), rows);
        for packet in packets.bytes.chunks(42) {
            assert_eq!(rt; packet, PACKET.as_slice());
        }
    }
    Ok(())
}

#[test]
fn packets_are_read_in_pieces_of_any_length(rt: HostRuntime) -> Result<(), Fail> {
    let alloc = rt.alloc();
    let second = 1_000_000_000;
    let one = Row(0, 0, second, 1, 42, 42);
    holds(
        &rt,
        alloc,
        &[SECTION, INTERFACE, HEAD, PACKET, TAIL],
        &[one],
    )?;
    let nanos: &[u8] =
        b"\x01\0\0\0\x20\0\0\0\x01\0\0\0\0\0\x04\0\x09\0\x01\0\x09\0\0\0\0\0\0\0\x20\0\0\0";
    let head: &[u8] = b"\x06\0\0\0\x4C\0\0\0\0\0\0\0\0\0\0\0\0\xCA\x9A\x3B\x2A\0\0\0\x2A\0\0\0";
    holds(&rt, alloc, &[SECTION, nanos, head, PACKET, TAIL], &[one])?;
    // The high word of a time comes first.
    let high: &[u8] = b"\x06\0\0\0\x4C\0\0\0\0\0\0\0\x01\0\0\0\x02\0\0\0\x2A\0\0\0\x2A\0\0\0";
    holds(
        &rt,
        alloc,
        &[SECTION, nanos, high, PACKET, TAIL],
        &[Row(0, 0, 4_294_967_298, 1, 42, 42)],
    )?;
    // Half seconds: 2^-1.
    let halves: &[u8] = b"\x01\0\0\0\x1C\0\0\0\x01\0\0\0\0\0\x04\0\x09\0\x01\0\x81\0\0\0\x1C\0\0\0";
    let three: &[u8] = b"\x06\0\0\0\x4C\0\0\0\0\0\0\0\0\0\0\0\x03\0\0\0\x2A\0\0\0\x2A\0\0\0";
    holds(
        &rt,
        alloc,
        &[SECTION, halves, three, PACKET, TAIL],
        &[Row(0, 0, 1_500_000_000, 1, 42, 42)],
    )?;
    // One second is taken from each time; the comment before it is passed over.
    let earlier: &[u8] = b"\x01\0\0\0\x2C\0\0\0\x01\0\0\0\0\0\x04\0\x01\0\x05\0hello\0\0\0\
        \x0E\0\x08\0\xFF\xFF\xFF\xFF\xFF\xFF\xFF\xFF\x2C\0\0\0";
    holds(
        &rt,
        alloc,
        &[SECTION, earlier, HEAD, PACKET, TAIL],
        &[Row(0, 0, 0, 1, 42, 42)],
    )?;
    Ok(())
}

#[test]
fn sections_interfaces_and_other_blocks_stand_in_one_file(rt: HostRuntime) -> Result<(), Fail> {
    let alloc = rt.alloc();
    let second = 1_000_000_000;
    let names: &[u8] = b"\x04\0\0\0\x10\0\0\0\0\0\0\0\x10\0\0\0";
    let simple: &[u8] = b"\x03\0\0\0\x3C\0\0\0\x2A\0\0\0";
    let simple_tail: &[u8] = b"\0\0\x3C\0\0\0";
    // A simple packet has the time of the one before it on interface 0.
    holds(
        &rt,
        alloc,
        &[
            SECTION,
            INTERFACE,
            simple,
            PACKET,
            simple_tail,
            names,
            HEAD,
            PACKET,
            TAIL,
            simple,
            PACKET,
            simple_tail,
        ],
        &[
            Row(0, 0, 0, 1, 42, 42),
            Row(1, 0, second, 1, 42, 42),
            Row(2, 0, second, 1, 42, 42),
        ],
    )?;
    // Interfaces are numbered anew in each section, and each section has an order of its own.
    let raw: &[u8] = b"\x01\0\0\0\x14\0\0\0\x65\0\0\0\0\0\x04\0\x14\0\0\0";
    let of_one: &[u8] = b"\x06\0\0\0\x4C\0\0\0\x01\0\0\0\0\0\0\0\x40\x42\x0F\0\x2A\0\0\0\x2A\0\0\0";
    holds(
        &rt,
        alloc,
        &[
            SECTION,
            INTERFACE,
            raw,
            of_one,
            PACKET,
            TAIL,
            BIG_SECTION,
            BIG_INTERFACE,
            BIG_HEAD,
            PACKET,
            BIG_TAIL,
        ],
        &[
            Row(0, 1, second, 101, 42, 42),
            Row(1, 0, second, 101, 43, 42),
        ],
    )?;
    Ok(())
}

/// A file of these parts has this fault at this place, in pieces of any length.
fn finds(
    rt: &impl Abort,
    alloc: Global,
    parts: &[&[u8]],
    at: u64,
    what: PcapFault,
) -> Result<(), AllocError> {
    let file = joined(alloc, parts)?;
    assert!(rt; file.len() < 1000);
    for piece in [1, 3, 4096] {
        let mut packets = Packets {
            rows: Vec::new(alloc),
            bytes: Vec::new(alloc),
        };
        assert_eq!(rt;
            read_file(alloc, file.as_slice(), piece, &mut packets)?,
            Err(Bad { at, what })
        );
    }
    Ok(())
}

#[test]
fn each_fault_has_its_place(rt: HostRuntime) -> Result<(), Fail> {
    let alloc = rt.alloc();
    // Each file ends with a packet and its tail, which stand after the malformed place or belong to it.
    for (section, blocks, at, what) in [
        (
            b"\x0A\x0D\x0D\x0A\x1C\0\0\0\0\0\0\0".as_slice(),
            b"".as_slice(),
            8,
            PcapFault::PcapNg,
        ),
        (
            b"\x0A\x0D\x0D\x0A\x1D\0\0\0\x4D\x3C\x2B\x1A",
            b"",
            4,
            PcapFault::NgLength { len: 29 },
        ),
        (
            b"\x0A\x0D\x0D\x0A\x18\0\0\0\x4D\x3C\x2B\x1A",
            b"",
            4,
            PcapFault::NgLength { len: 24 },
        ),
        (
            SECTION,
            b"\x04\0\0\0\x04\0\0\x01\0\0\0\0",
            32,
            PcapFault::NgLength { len: 16_777_220 },
        ),
        (
            SECTION,
            b"\x01\0\0\0\x14\0\0\0\x01\0\0\0\0\0\x04\0\x15\0\0\0",
            44,
            PcapFault::NgTail { tail: 21 },
        ),
        (
            b"\x0A\x0D\x0D\x0A\x1C\0\0\0\x4D\x3C\x2B\x1A\x02\0\x03\0\xFF\xFF\xFF\xFF\xFF\xFF\xFF\xFF\x1C\0\0\0",
            b"",
            12,
            PcapFault::Version { major: 2, minor: 3 },
        ),
        (
            SECTION,
            b"\x01\0\0\0\x1C\0\0\0\x01\0\0\0\0\0\x04\0\x09\0\x01\0\x1F\0\0\0\x1C\0\0\0",
            48,
            PcapFault::NgResolution { r: 31 },
        ),
        (
            SECTION,
            b"\x01\0\0\0\x1C\0\0\0\x01\0\0\0\0\0\x04\0\x09\0\x01\0\xC0\0\0\0\x1C\0\0\0",
            48,
            PcapFault::NgResolution { r: 192 },
        ),
        (
            SECTION,
            b"\x01\0\0\0\x14\0\0\0\x01\0\0\0\0\0\x04\0\x14\0\0\0\x06\0\0\0\x4C\0\0\0\x01\0\0\0\0\0\0\0\x40\x42\x0F\0\x2A\0\0\0\x2A\0\0\0",
            56,
            PcapFault::NgInterface { id: 1 },
        ),
        (
            SECTION,
            b"\x01\0\0\0\x14\0\0\0\x01\0\0\0\0\0\x04\0\x14\0\0\0\x06\0\0\0\x4C\0\0\0\0\0\0\0\0\0\0\0\x40\x42\x0F\0\x01\0\x04\0\x2A\0\0\0",
            68,
            PcapFault::TooLong {
                number: 0,
                len: 262_145,
            },
        ),
        (
            SECTION,
            b"\x01\0\0\0\x14\0\0\0\x01\0\0\0\0\0\x04\0\x14\0\0\0\x06\0\0\0\x4C\0\0\0\0\0\0\0\0\0\0\0\x40\x42\x0F\0\x2D\0\0\0\x2D\0\0\0",
            68,
            PcapFault::NgPacket { number: 0, len: 45 },
        ),
        (
            SECTION,
            b"\x01\0\0\0\x20\0\0\0\x01\0\0\0\0\0\x04\0\x0E\0\x08\0\xFE\xFF\xFF\xFF\xFF\xFF\xFF\xFF\x20\0\0\0\x06\0\0\0\x4C\0\0\0\0\0\0\0\0\0\0\0\x40\x42\x0F\0\x2A\0\0\0\x2A\0\0\0",
            72,
            PcapFault::NgTime { number: 0 },
        ),
    ] {
        finds(&rt, alloc, &[section, blocks, PACKET, TAIL], at, what)?;
    }
    Ok(())
}

#[test]
fn a_file_that_ends_inside_a_block_is_cut(rt: HostRuntime) -> Result<(), Fail> {
    let alloc = rt.alloc();
    let file = joined(alloc, &[SECTION, INTERFACE, HEAD, PACKET, TAIL])?;
    assert!(rt; file.len() == 124);
    for len in 0..=124 {
        let mut packets = Packets {
            rows: Vec::new(alloc),
            bytes: Vec::new(alloc),
        };
        let end = read_file(alloc, &file[..len], 4096, &mut packets)?;
        if len < 28 {
            let len = len as u64;
            let what = PcapFault::ShortHeader { len };
            assert_eq!(rt; end, Err(Bad { at: len, what }));
        } else {
            let records = u64::from(len == 124);
            let cut = len != 28 && len != 48 && len != 124;
            assert_eq!(rt; end, Ok(Tail { records, cut }));
        }
    }
    Ok(())
}
