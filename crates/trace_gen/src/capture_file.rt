//! The capture files of a sample (libpcap file format 2.4): nanoseconds, the lowest byte of a number first, Ethernet.

ghost use Rattle.std.specs.Prelude.{◌≡◌, ◌++◌, ◌<◌, ◌^◌, All, OnOk, IfOk};
ghost use Rattle.trace_gen.specs.Captures.{file_header, record_of, record_at, capture_file};

use crate::numbers::{put, put_little_half, put_little_word};
use crate::packet::{packet_len, put_packet};
use crate::sighting::{Sighting, SightingList};
use ds_base::OutOfMemory;
use std::alloc::Global;

/// The magic number of nanoseconds.
const NANOSECONDS: u32 = 0xA1B2_3C4D;

/// How many nanoseconds are a second.
const SECOND: u64 = 1_000_000_000;

/// The file of a capture point: what it saw of all that was seen.
pub(crate) fn capture_file(
    alloc: Global,
    point: u32,
    seen: &SightingList,
) -> Result<Vec<u8>, OutOfMemory>
    requires { All (λ s. s.time < 2 ^ 35) seen.now.items }
    ensures { IfOk result (λ bytes. bytes.items ≡ capture_file point seen.now.items) }
{
    let mut out = Vec::new(alloc);
    put_header(&mut out)?;
    for k in 0..seen.len() {
        put_where(&mut out, point, seen.get(k))?;
    }
    Ok(out)
}

// The record of a sighting, where it is this capture point's.
fn put_where(out: &mut Vec<u8>, point: u32, sighting: &Sighting) -> Result<(), OutOfMemory>
    requires { sighting.now.time < 2 ^ 35 }
    ensures { OnOk result (out.new.items ≡ out.old.items ++ record_at point sighting.now) }
{
    if sighting.capture == point {
        put_record(out, sighting)?;
    }
    Ok(())
}

// The header of a file.
#[tactic(auto, unfolding(crate::specs::Captures::file_header))]
fn put_header(out: &mut Vec<u8>) -> Result<(), OutOfMemory>
    ensures { OnOk result (out.new.items ≡ out.old.items ++ file_header) }
{
    put_little_word(out, NANOSECONDS)?;
    put_little_half(out, 2)?;
    put_little_half(out, 4)?;
    put_little_word(out, 0)?;
    put_little_word(out, 0)?;
    put_little_word(out, 262_144)?;
    put_little_word(out, 1)
}

// A record.
#[tactic(auto, unfolding(crate::specs::Captures::record_of))]
fn put_record(out: &mut Vec<u8>, sighting: &Sighting) -> Result<(), OutOfMemory>
    requires { sighting.now.time < 2 ^ 35 }
    ensures { OnOk result (out.new.items ≡ out.old.items ++ record_of sighting.now) }
{
    let len = packet_len(sighting);
    put_little_word(out, (sighting.time / SECOND) as u32)?;
    put_little_word(out, (sighting.time % SECOND) as u32)?;
    put_little_word(out, len)?;
    put_little_word(out, len)?;
    put_packet(out, sighting)
}
