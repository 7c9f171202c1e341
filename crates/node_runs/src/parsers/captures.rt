//! A job of two captures, their files, and the frames that a parser of both sends.

use ds_base::{Counts, Nums, Stamp, Summary};
use node_frames::Frame;
use std::alloc::{AllocError, Global};
use std::test::Fail;
use summary_spec::Job;

/// The job: an item for each packet but those of identification 5, and a skew of a microsecond.
const JOB: &str =
    r#"{"version":1,"captures":[{"name":"a","file":"a"},{"name":"b","file":"b"}],"vars":[{"name":"id","take":["ipv4[-1].id"]}],"key":["id"],"filter":"id != 5","window":0,"skew":1000,"query":{"kind":"all"}}"#;

pub(super) fn job(alloc: Global) -> Result<Job, Fail> {
    match Job::read(alloc, JOB.as_bytes()) {
        Ok(job) => Ok(job),
        Err(_) => Err(Fail::from("the job is refused")),
    }
}

/// The file header: little-endian microseconds on Ethernet.
pub(super) const HEADER: [u8; 24] = [
    0xD4, 0xC3, 0xB2, 0xA1, 2, 0, 4, 0, 0, 0, 0, 0, 0, 0, 0, 0, 0, 0, 4, 0, 1, 0, 0, 0,
];

/// Ethernet, IPv4 and UDP.
const PACKET: [u8; 42] = [
    2, 0, 0, 0, 0, 2, 2, 0, 0, 0, 0, 1, 8, 0, 0x45, 0, 0, 0x1C, 0, 7, 0, 0, 64, 0x11, 0, 0, 10, 0,
    0, 1, 10, 0, 0, 2, 4, 0xD2, 0, 0x35, 0, 8, 0, 0,
];

/// So many records, each two microseconds behind the one before: the first at this one after a second. Their
/// identifications count up.
pub(super) fn file(alloc: Global, id: u8, count: u8, micro: u32) -> Result<Vec<u8>, AllocError> {
    let mut file = HEADER.to_vec(alloc)?;
    for i in 0..count {
        let mut packet = PACKET;
        packet[19] = id.wrapping_add(i);
        file.extend_from_slice(&[1, 0, 0, 0])?;
        file.extend_from_slice(&micro.wrapping_add(2 * u32::from(i)).to_le_bytes())?;
        file.extend_from_slice(&[42, 0, 0, 0, 42, 0, 0, 0])?;
        file.extend_from_slice(&packet)?;
    }
    Ok(file)
}

/// The files of the captures: the second's three records stand between the first ones of the other.
pub(super) fn files(alloc: Global) -> Result<[Vec<u8>; 2], AllocError> {
    Ok([file(alloc, 0, 40, 0)?, file(alloc, 100, 3, 1)?])
}

/// The item of a record.
fn item(capture: u32, number: u8, id: u8) -> Frame {
    let mut key = Nums::new();
    key.push(u128::from(id));
    let micros = 2 * u64::from(number) + u64::from(capture);
    let at = Stamp {
        time: 1_000_000_000 + 1000 * micros,
        capture,
        number: u64::from(number),
    };
    Frame::Item(Summary { at, key, vals: key })
}

/// The frames for one of two groupers. By the FNV-1a hash of 64 bits the odd ones of these identifications go to the first.
pub(super) fn for_grouper(alloc: Global, grouper: u8) -> Result<Vec<Frame>, AllocError> {
    let mut frames = Vec::new(alloc);
    for i in 0..40 {
        if i % 2 != grouper && i != 5 {
            frames.push(item(0, i, i))?;
        }
        if i == 31 {
            frames.push(Frame::Mark {
                capture: 0,
                mark: 1_000_061_000,
            })?;
        }
        if i < 3 && i % 2 != grouper {
            frames.push(item(1, i, 100 + i))?;
        }
        if i == 3 {
            frames.push(Frame::CaptureEnd { capture: 1 })?;
        }
    }
    frames.push(Frame::CaptureEnd { capture: 0 })?;
    frames.push(Frame::Finish)?;
    Ok(frames)
}

fn row(capture: u32, records: u64, unmatched: u64) -> Frame {
    Frame::CountsRow {
        capture,
        counts: Counts {
            records,
            unmatched,
            late: 0,
            accepted: records.saturating_sub(unmatched),
            cut: false,
        },
    }
}

/// The frames for the merge.
pub(super) fn for_merge(alloc: Global) -> Result<Vec<Frame>, AllocError> {
    let mut frames = Vec::new(alloc);
    frames.push(row(1, 3, 0))?;
    frames.push(row(0, 40, 1))?;
    frames.push(Frame::Finish)?;
    Ok(frames)
}
