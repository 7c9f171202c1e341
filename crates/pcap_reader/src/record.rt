//! One record of a libpcap file: where it ends, and what it says.
ghost use Rattle.std.specs.Prelude.{◌≡◌, ◌+◌, ◌<◌, ◌≤◌, ◌^◌, length, Option, None, Some, IfOk, IfSome, IfNone};
ghost use Rattle.ds_base.specs.Times.{hour};
ghost use Rattle.pcap_reader.specs.Records.{begins_record, record_fault, time_of, shown, Finds};
ghost use Rattle.pcap_reader.specs.Lent.{captured};

use crate::format::{Format, Precision};
use capture_bytes::read_word;
use ds_base::{Bad, PcapFault};

/// How many bytes of a packet a record has at most.
pub(crate) const LONGEST: u32 = 262_144;

/// How many records a file has at most, 2^40.
pub(crate) const MOST_RECORDS: u64 = 1 << 40;

/// How many bytes stand in front of a packet's own in a record.
pub(crate) const HEADER: usize = 16;

/// One record of a capture file. Its bytes are lent by the reader.
#[derive(Clone, Copy, Debug)]
pub struct RecordRef<'a> {
    /// The record's number among those that are read of the file, counted from 0, below 2^40.
    pub number: u64,
    /// When the packet was captured, in nanoseconds since 1970, more than an hour below 2^63.
    pub time: u64,
    /// The link type: of a libpcap file 1 (Ethernet) or 101 (raw IP), of a pcapng file that of the interface.
    pub link: u32,
    /// How many bytes the packet had, of which some may not have been captured.
    pub orig: u32,
    /// The captured bytes, at most 262,144.
    pub bytes: &'a [u8],
}

/// How long the record at the front of `rest` is, with its header. None: no whole record stands there,
/// and what stands there is no malformed place. `count` records stand before `rest`, which begins at
/// `place` of the file.
#[tactic(auto, unfolding(crate::specs::Records::begins_record, crate::specs::Records::record_fault))]
pub(crate) fn find_record(
    format: Format,
    count: u64,
    place: u64,
    rest: &[u8],
) -> Result<Option<usize>, Bad>
    requires { place + length rest.now < 2 ^ 62 }
    ensures found { Finds format count place rest.now result }
    ensures bounds { IfOk result (λ o. IfSome o (λ n. (16 ≤ n) × (n ≤ length rest.now) × (n ≤ 262160))) }
    ensures short { IfOk result (λ o. IfNone o (length rest.now ≤ 262159)) }
{
    if count >= MOST_RECORDS {
        if rest.is_empty() {
            return Ok(None);
        }
        return Err(Bad {
            at: place,
            what: PcapFault::TooMany,
        });
    }
    if rest.len() < HEADER {
        return Ok(None);
    }
    let len = read_word(format.endian, rest, 8);
    if len > LONGEST {
        return Err(Bad {
            at: place + 8,
            what: PcapFault::TooLong { number: count, len },
        });
    }
    let whole = HEADER + len as usize;
    if rest.len() < whole {
        return Ok(None);
    }
    Ok(Some(whole))
}

/// The time of the record that the slice is, in nanoseconds since 1970.
pub(crate) fn read_time(format: Format, slice: &[u8]) -> u64
    requires { 16 ≤ length slice.now }
    ensures value { result ≡ time_of format slice.now }
    ensures bound { result + hour < 2 ^ 63 }
{
    let seconds = u64::from(read_word(format.endian, slice, 0));
    let fraction = u64::from(read_word(format.endian, slice, 4));
    let nanos = match format.precision {
        Precision::Micros => 1_000,
        Precision::Nanos => 1,
    };
    seconds * 1_000_000_000 + fraction * nanos
}

/// What the record that the slice is shows.
#[tactic(auto, unfolding(crate::specs::Records::shown))]
pub(crate) fn read_record(format: Format, number: u64, slice: &[u8]) -> RecordRef<'_>
    requires { 16 ≤ length slice.now }
    ensures value { captured result ≡ shown format number slice.now }
    ensures time { result.time + hour < 2 ^ 63 }
{
    RecordRef {
        number,
        time: read_time(format, slice),
        link: format.link,
        orig: read_word(format.endian, slice, 12),
        bytes: &slice[HEADER..],
    }
}

/// A record that was found and stands at the end of the bytes that were used up.
#[derive(Clone, Copy)]
pub(crate) struct FoundRecord {
    pub(crate) format: Format,
    pub(crate) number: u64,
    /// How long the record is, with its header.
    pub(crate) len: usize,
}
