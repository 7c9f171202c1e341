//! Summaries, tallies and shards, beside numbers that were worked out by hand.
ghost use Rattle.std.specs.Prelude.{◌≡◌, ◌<◌, ◌+◌, length};
ghost use Rattle.key_select.specs.Tally.{capture_of, records_taken};

use crate::{Tally, adjusted, select, shard};
use ds_base::{Counts, Nums, Stamp, Summary};
use pcap_reader::RecordRef;
use std::alloc::Global;
use std::process::Abort;
use std::test::Fail;
use summary_spec::Job;

/// A job of one capture, whose clock is 2 ns fast. The packet has both alternatives of `id`, and of `ttl` only the latter.
const JOB: &str =
    r#"{"version":2,"captures":[{"name":"c","file":"f","offset":-2,"skew":1000}],"vars":[{"name":"id","take":["ipv4[-1].id","ipv4[-1].ttl"]},{"name":"ttl","take":["ipv6[0].hops","ipv4[-1].ttl"]}],"key":["id"],"filter":"id != 5","window":0,"skew":0,"query":{"kind":"all"}}"#;

/// Ethernet, IPv4 with the identification 7 and the hop limit 64, and UDP.
static PACKET: [u8; 42] = [
    0x02, 0x00, 0x00, 0x00, 0x00, 0x02, 0x02, 0x00, 0x00, 0x00, 0x00, 0x01, 0x08, 0x00, 0x45, 0x00,
    0x00, 0x1c, 0x00, 0x07, 0x00, 0x00, 0x40, 0x11, 0x00, 0x00, 0x0a, 0x00, 0x00, 0x01, 0x0a, 0x00,
    0x00, 0x02, 0x04, 0xd2, 0x00, 0x35, 0x00, 0x08, 0x00, 0x00,
];

/// The job of one capture.
fn job(rt: &impl Abort, alloc: Global) -> Result<Job, Fail> {
    Ok(Job::read(alloc, JOB.as_bytes()).ok().ok_or("refused")?)
}

/// A record with this number and time, in nanoseconds.
fn seen<'a>(number: u64, time: u64, bytes: &'a [u8]) -> RecordRef<'a>
    ensures number { result.number ≡ number }
    ensures time { result.time ≡ time }
    ensures link { result.link ≡ 1 }
    ensures bytes { result.bytes.now ≡ bytes.now }
{
    RecordRef {
        number,
        time,
        link: 1,
        orig: 42,
        bytes,
    }
}

/// The summary of the packet with this identification.
fn summary_of(time: u64, number: u64, id: u128) -> Summary {
    let mut key = Nums::new();
    key.push(id);
    let mut vals = Nums::new();
    vals.push(id);
    vals.push(64);
    let at = Stamp {
        time,
        capture: 0,
        number,
    };
    Summary { at, key, vals }
}

#[test]
fn each_variable_takes_its_first_alternative(rt: HostRuntime) -> Result<(), Fail> {
    let job = job(&rt, rt.alloc())?;
    assert!(rt; job.names.captures.len() == 1);
    let found = select(&job, 0, &seen(3, 5, &PACKET));
    assert_eq!(rt; found, Some(summary_of(3, 3, 7)));
    assert!(rt; select(&job, 0, &seen(3, 5, &PACKET[..33])).is_none());
    Ok(())
}

/// Takes a record up that was seen at this time with this identification, or with no IPv4 header.
fn take(rt: &impl Abort, tally: &mut Tally, job: &Job, number: u64, row: (u64, Option<u8>)) -> bool
    requires few { number < 9 }
    requires next { records_taken tally.old ≡ number }
    requires capture { capture_of tally.old < length job.now.names.captures.items }
    ensures next { records_taken tally.new ≡ number + 1 }
    ensures capture { capture_of tally.new ≡ capture_of tally.old }
{
    let (time, id) = row;
    assert!(rt; time < 10_000_000_000);
    let mut packet = PACKET;
    match id {
        Some(id) => packet[19] = id,
        None => packet[13] = 0x06,
    }
    tally.take_up(job, &seen(number, time, &packet)).is_some()
}

#[test]
fn late_records_are_counted_and_every_record_raises_the_newest(
    rt: HostRuntime,
) -> Result<(), Fail> {
    let job = job(&rt, rt.alloc())?;
    assert!(rt; job.names.captures.len() == 1);
    let mut tally = Tally::new(&job, 0);
    assert_eq!(rt; tally.newest(), None);
    // As late as the skew allows, and a nanosecond later.
    assert!(rt; take(&rt, &mut tally, &job, 0, (1_000_002_000, Some(1))));
    assert!(rt; take(&rt, &mut tally, &job, 1, (1_000_001_000, Some(2))));
    assert!(rt; !take(&rt, &mut tally, &job, 2, (1_000_000_999, Some(3))));
    // Without a summary, by the packet and by the filter.
    assert!(rt; !take(&rt, &mut tally, &job, 3, (1_000_009_000, None)));
    assert!(rt; !take(&rt, &mut tally, &job, 4, (1_000_009_000, Some(5))));
    assert!(rt; !take(&rt, &mut tally, &job, 5, (1_000_007_999, Some(6))));
    assert_eq!(rt; tally.newest(), Some(1_000_008_998));
    let wanted = Counts {
        records: 6,
        unmatched: 2,
        late: 2,
        accepted: 2,
        cut: true,
    };
    assert_eq!(rt; tally.counts(true), wanted);
    Ok(())
}

#[test]
fn times_are_moved_by_the_offset_and_never_below_0(rt: HostRuntime) -> Result<(), Fail> {
    let job = job(&rt, rt.alloc())?;
    assert!(rt; job.names.captures.len() == 1);
    for (time, wanted) in [(0, 0), (1, 0), (2, 0), (3, 1), (1_000_000_000, 999_999_998)] {
        assert!(rt; time < 10_000_000_000);
        assert_eq!(rt; adjusted(&job, 0, time), wanted);
    }
    Ok(())
}

#[test]
fn shards_of_four(rt: HostRuntime) {
    for (number, wanted) in [(7, 0), (8, 1), (5, 2), (6, 3)] {
        let mut key = Nums::new();
        key.push(number);
        assert_eq!(rt; shard(&key, 4), wanted);
    }
}
