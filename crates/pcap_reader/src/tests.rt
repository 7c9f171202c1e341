//! Capture files as bytes, by the formats: read in pieces of several lengths, and of libpcap by the plain program.
ghost use Rattle.std.specs.Prelude.{◌≡◌, ◌≤◌, ◌<◌, ◌^◌, length, IfOk, IfNone};
ghost use Rattle.pcap_reader.specs.Reader.{bytes_fed, IsWaiting};

use crate::{PcapReader, RecordRef, check_file, is_pcapng};
use ds_base::{Bad, PcapFault, Tail};
use std::alloc::{AllocError, Global};
use std::process::Abort;
use std::test::Fail;

/// What a record says beside its bytes: number, time, link, length of the packet, captured length.
#[derive(Clone, Copy, Debug, PartialEq, Eq)]
struct Row(u64, u64, u32, u32, usize);

/// What was read of a file: the records, and their bytes joined.
#[derive(Debug, Drop)]
struct Records {
    rows: Vec<Row>,
    bytes: Vec<u8>,
}

/// The header of a little-endian file in microseconds on Ethernet.
const HEADER: &[u8; 24] =
    b"\xD4\xC3\xB2\xA1\x02\x00\x04\x00\0\0\0\0\0\0\0\0\x00\x00\x04\x00\x01\x00\x00\x00";

/// A packet of 42 bytes: Ethernet, IPv4 with id 7 and TTL 64, UDP.
const PACKET: &[u8; 42] = b"\x02\0\0\0\0\x02\x02\0\0\0\0\x01\x08\x00\
    \x45\x00\x00\x1C\x00\x07\x00\x00\x40\x11\x00\x00\x0A\x00\x00\x01\x0A\x00\x00\x02\
    \x04\xD2\x00\x35\x00\x08\x00\x00";

fn row_of(record: RecordRef<'_>) -> Row {
    Row(
        record.number,
        record.time,
        record.link,
        record.orig,
        record.bytes.len(),
    )
}

/// Takes all records that are there, and the malformed place after them.
fn drain(reader: &mut PcapReader, records: &mut Records) -> Result<Option<Bad>, AllocError>
    ensures fed { bytes_fed reader.new ≡ bytes_fed reader.old }
    ensures waiting { IfOk result (λ o. IfNone o (IsWaiting reader.new)) }
{
    loop {
        let (row, bytes) = match reader.next() {
            Ok(Some(record)) => (row_of(record), record.bytes),
            Ok(None) => return Ok(None),
            Err(bad) => return Ok(Some(bad)),
        };
        records.rows.push(row)?;
        records.bytes.extend_from_slice(bytes)?;
    }
}

/// Reads a whole file in pieces, the packets of this interface or of all.
fn read_file(
    alloc: Global,
    wanted: Option<u32>,
    bytes: &[u8],
    piece: usize,
    records: &mut Records,
) -> Result<Result<Tail, Bad>, AllocError>
    requires some { 1 ≤ piece }
    requires room { length bytes.now < 2 ^ 62 }
{
    let mut reader = PcapReader::for_interface(alloc, wanted);
    let mut at = 0;
    while at < bytes.len() {
        let end = at + piece.min(bytes.len() - at);
        let Ok(()) = reader.feed(&bytes[at..end]) else {
            return Err(AllocError);
        };
        if let Some(bad) = drain(&mut reader, records)? {
            return Ok(Err(bad));
        }
        at = end;
    }
    Ok(reader.finish())
}

/// A file of these parts.
fn joined(alloc: Global, parts: &[&[u8]]) -> Result<Vec<u8>, AllocError> {
    let mut file = Vec::new(alloc);
    for part in parts {
        file.extend_from_slice(part)?;
    }
    Ok(file)
}

/// The first eight bytes of a file: magic number and version, in both orders and units.
const LITTLE_MICROS: &[u8; 8] = b"\xD4\xC3\xB2\xA1\x02\x00\x04\x00";

const BIG_MICROS: &[u8; 8] = b"\xA1\xB2\xC3\xD4\x00\x02\x00\x04";

const LITTLE_NANOS: &[u8; 8] = b"\x4D\x3C\xB2\xA1\x02\x00\x04\x00";

const BIG_NANOS: &[u8; 8] = b"\xA1\xB2\x3C\x4D\x00\x02\x00\x04";

/// What stands between the version and the link type word.
const UNUSED: &[u8; 12] = &[0; 12];

/// The header of a record of 42 bytes.
const HEAD: &[u8; 16] = b"\0\0\0\0\0\0\0\0\x2A\x00\x00\x00\x2A\x00\x00\x00";

/// Headers of records of 262,144 bytes, of one more, and of the most that the word can say.
const LONGEST: &[u8; 16] = b"\0\0\0\0\0\0\0\0\x00\x00\x04\x00\0\0\0\0";

const TOO_LONG: &[u8; 16] = b"\0\0\0\0\0\0\0\0\x01\x00\x04\x00\0\0\0\0";

const FAR_TOO_LONG: &[u8; 16] = b"\0\0\0\0\0\0\0\0\xFF\xFF\xFF\xFF\0\0\0\0";

/// A little-endian section of a pcapng file, its interface on Ethernet, and the head and the end of an enhanced
/// packet block of 42 bytes.
const SECTION: &[u8] = b"\x0A\x0D\x0D\x0A\x1C\0\0\0\x4D\x3C\x2B\x1A\x01\0\0\0\
    \xFF\xFF\xFF\xFF\xFF\xFF\xFF\xFF\x1C\0\0\0";

const INTERFACE: &[u8] = b"\x01\0\0\0\x14\0\0\0\x01\0\0\0\0\0\x04\0\x14\0\0\0";

const PACKET_HEAD: &[u8] =
    b"\x06\0\0\0\x4C\0\0\0\0\0\0\0\0\0\0\0\x40\x42\x0F\0\x2A\0\0\0\x2A\0\0\0";

const PACKET_TAIL: &[u8] = b"\0\0\x4C\0\0\0";

fn whole(records: u64) -> Result<Tail, Bad> {
    Ok(Tail {
        records,
        cut: false,
    })
}

fn cut(records: u64) -> Result<Tail, Bad> {
    Ok(Tail { records, cut: true })
}

fn bad(at: u64, what: PcapFault) -> Result<Tail, Bad> {
    Err(Bad { at, what })
}

/// A file of these parts ends so, by the plain program and in pieces of any length.
fn ends(
    rt: &impl Abort,
    alloc: Global,
    parts: &[&[u8]],
    wanted: Result<Tail, Bad>,
) -> Result<(), AllocError> {
    let file = joined(alloc, parts)?;
    assert!(rt; file.len() < 1000);
    if !is_pcapng(file.as_slice()) {
        assert_eq!(rt; check_file(file.as_slice()), wanted);
    }
    for piece in [1, 2, 3, 7, 16, 4096] {
        let mut records = Records {
            rows: Vec::new(alloc),
            bytes: Vec::new(alloc),
        };
        assert_eq!(rt;
            read_file(alloc, None, file.as_slice(), piece, &mut records)?,
            wanted
        );
    }
    Ok(())
}

#[test]
fn each_file_ends_as_the_format_says(rt: HostRuntime) -> Result<(), Fail> {
    let files: [(&[&[u8]], Result<Tail, Bad>); 22] = [
        (
            &[b"\x0A\x0D\x0D\x0A"],
            bad(4, PcapFault::ShortHeader { len: 4 }),
        ),
        (
            &[b"\x0A\x0D\x0D\x0A\x1C\0\0\0\x4D\x3C\x2B\x1B"],
            bad(8, PcapFault::PcapNg),
        ),
        (&[b"\x0A\x0D\x0D\x0B"], bad(0, PcapFault::Magic)),
        (
            &[SECTION, INTERFACE, PACKET_HEAD, PACKET, PACKET_TAIL],
            whole(1),
        ),
        (
            &[SECTION, INTERFACE, PACKET_HEAD, PACKET, &PACKET_TAIL[..5]],
            cut(0),
        ),
        (&[b"\xD4\xC3\xB2\xA0\x02\x00"], bad(0, PcapFault::Magic)),
        (&[], bad(0, PcapFault::ShortHeader { len: 0 })),
        (
            &[b"\x0A\x0D\x0D"],
            bad(3, PcapFault::ShortHeader { len: 3 }),
        ),
        (
            &[&HEADER[..23]],
            bad(23, PcapFault::ShortHeader { len: 23 }),
        ),
        (
            &[b"\xD4\xC3\xB2\xA1\x02\x00\x03\x00", UNUSED, b"\0\0\0\0"],
            bad(4, PcapFault::Version { major: 2, minor: 3 }),
        ),
        (
            &[b"\xA1\xB2\xC3\xD4\x00\x03\x00\x04", UNUSED, b"\0\0\0\x01"],
            bad(4, PcapFault::Version { major: 3, minor: 4 }),
        ),
        (
            &[LITTLE_NANOS, UNUSED, b"\x65\0\0\x10"],
            bad(20, PcapFault::LinkType { word: 0x1000_0065 }),
        ),
        (
            &[BIG_NANOS, UNUSED, b"\x01\0\0\0"],
            bad(20, PcapFault::LinkType { word: 0x0100_0000 }),
        ),
        (
            &[HEADER, TOO_LONG, PACKET],
            bad(
                32,
                PcapFault::TooLong {
                    number: 0,
                    len: 262_145,
                },
            ),
        ),
        (
            &[HEADER, &[0; 16], FAR_TOO_LONG],
            bad(
                48,
                PcapFault::TooLong {
                    number: 1,
                    len: 0xFFFF_FFFF,
                },
            ),
        ),
        (&[HEADER], whole(0)),
        (&[HEADER, HEAD, PACKET], whole(1)),
        (&[HEADER, &[0; 16]], whole(1)),
        (&[HEADER, &HEAD[..15]], cut(0)),
        (&[HEADER, HEAD, &PACKET[..41]], cut(0)),
        (&[HEADER, LONGEST, PACKET], cut(0)),
        (&[HEADER, &TOO_LONG[..15]], cut(0)),
    ];
    for (parts, wanted) in files {
        ends(&rt, rt.alloc(), parts, wanted)?;
    }
    Ok(())
}

/// A file of these eight bytes, this link type word and this one record shows the record so.
fn shows(
    rt: &impl Abort,
    alloc: Global,
    start: &[u8; 8],
    link: &[u8; 4],
    record: &[u8; 17],
    row: Row,
) -> Result<(), AllocError> {
    let file = joined(alloc, &[start, UNUSED, link, record])?;
    assert!(rt; file.len() < 1000);
    let mut read = Records {
        rows: Vec::new(alloc),
        bytes: Vec::new(alloc),
    };
    assert_eq!(rt;
        read_file(alloc, None, file.as_slice(), 7, &mut read)?,
        whole(1)
    );
    assert_eq!(rt; read.rows.as_slice(), [row].as_slice());
    assert_eq!(rt; read.bytes.as_slice(), &record[16..]);
    Ok(())
}

#[test]
fn times_are_nanoseconds_in_every_format(rt: HostRuntime) -> Result<(), Fail> {
    let records: [(&[u8; 8], &[u8; 4], &[u8; 17], Row); 5] = [
        (
            LITTLE_MICROS,
            b"\x01\0\0\0",
            b"\x00\x00\x00\x00\xFF\xFF\xFF\xFF\x01\0\0\0\x40\x00\x00\x00\x07",
            Row(0, 4_294_967_295_000, 1, 64, 1),
        ),
        (
            LITTLE_NANOS,
            b"\x65\0\0\0",
            b"\x01\x00\x00\x00\x00\xCA\x9A\x3B\x01\0\0\0\x00\x00\x00\x80\x07",
            Row(0, 2_000_000_000, 101, 0x8000_0000, 1),
        ),
        (
            BIG_MICROS,
            b"\0\0\0\x65",
            b"\xFF\xFF\xFF\xFF\xFF\xFF\xFF\xFF\0\0\0\x01\x00\x00\x00\x40\x07",
            Row(0, 4_294_971_589_967_295_000, 101, 64, 1),
        ),
        (
            BIG_NANOS,
            b"\0\0\0\x01",
            b"\x00\x00\x00\x01\x00\x00\x00\x05\0\0\0\x01\x00\x00\x00\x00\x07",
            Row(0, 1_000_000_005, 1, 0, 1),
        ),
        (
            BIG_NANOS,
            b"\0\0\0\x01",
            b"\xFF\xFF\xFF\xFF\x00\x00\x00\x00\0\0\0\x01\x00\x00\x00\x00\x07",
            Row(0, 4_294_967_295_000_000_000, 1, 0, 1),
        ),
    ];
    for (start, link, record, row) in records {
        shows(&rt, rt.alloc(), start, link, record, row)?;
    }
    Ok(())
}

#[test]
fn records_of_one_interface_are_numbered_from_0(rt: HostRuntime) -> Result<(), Fail> {
    let alloc = rt.alloc();
    let raw: &[u8] = b"\x01\0\0\0\x14\0\0\0\x65\0\0\0\0\0\x04\0\x14\0\0\0";
    let of_raw: &[u8] = b"\x06\0\0\0\x4C\0\0\0\x01\0\0\0\0\0\0\0\x4A\x42\x0F\0\x2A\0\0\0\x2B\0\0\0";
    let file = joined(
        alloc,
        &[
            SECTION,
            INTERFACE,
            raw,
            PACKET_HEAD,
            PACKET,
            PACKET_TAIL,
            of_raw,
            PACKET,
            PACKET_TAIL,
            PACKET_HEAD,
            PACKET,
            PACKET_TAIL,
        ],
    )?;
    assert!(rt; file.len() < 1000);
    let first = Row(0, 1_000_000_000, 1, 42, 42);
    let last = Row(1, 1_000_000_000, 1, 42, 42);
    let second = Row(0, 1_000_010_000, 101, 43, 42);
    let all = [
        first,
        Row(1, 1_000_010_000, 101, 43, 42),
        Row(2, 1_000_000_000, 1, 42, 42),
    ];
    let cases: [(Option<u32>, &[Row]); 4] = [
        (None, &all),
        (Some(0), &[first, last]),
        (Some(1), &[second]),
        (Some(2), &[]),
    ];
    for (wanted, rows) in cases {
        for piece in [1, 2, 3, 7, 16, 4096] {
            let mut read = Records {
                rows: Vec::new(alloc),
                bytes: Vec::new(alloc),
            };
            let end = read_file(alloc, wanted, file.as_slice(), piece, &mut read)?;
            assert_eq!(rt; end, whole(rows.len() as u64));
            assert_eq!(rt; read.rows.as_slice(), rows);
            for packet in read.bytes.chunks(42) {
                assert_eq!(rt; packet, PACKET.as_slice());
            }
        }
    }
    // A libpcap file has the one interface 0.
    let plain = joined(alloc, &[HEADER, HEAD, PACKET])?;
    assert!(rt; plain.len() < 1000);
    for (wanted, records) in [(None, 1), (Some(0), 1), (Some(1), 0)] {
        let mut read = Records {
            rows: Vec::new(alloc),
            bytes: Vec::new(alloc),
        };
        assert_eq!(rt;
            read_file(alloc, wanted, plain.as_slice(), 7, &mut read)?,
            whole(records)
        );
    }
    Ok(())
}

#[test]
fn bytes_that_were_given_are_dropped(rt: HostRuntime) -> Result<(), Fail> {
    let mut reader = PcapReader::new(rt.alloc());
    let Ok(()) = reader.feed(HEADER) else {
        return Err(AllocError)?;
    };
    assert_eq!(rt; reader.held(), 24);
    assert!(rt; matches!(reader.next(), Ok(None)));
    let Ok(()) = reader.feed(&[0; 24]) else {
        return Err(AllocError)?;
    };
    assert!(rt; matches!(reader.next(), Ok(Some(RecordRef { number: 0, .. }))));
    assert!(rt; matches!(reader.next(), Ok(None)));
    assert_eq!(rt; reader.held(), 8);
    Ok(())
}
