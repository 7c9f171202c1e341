//! A job over three captures in memory, and the report that the plain program makes of these.

use central_report::{accepted_reportable, central_text};
use ds_base::{FileList, Folder, MemFolder, NamedFile, Text};
use job_inputs::gather_captures;
use std::alloc::Global;
use std::test::Fail;
use summary_spec::Job;

/// Loops by the time to live, within 100 nanoseconds; a record may be 10 late.
const JOB: &str =
    r#"{"version":1,"captures":[{"name":"s1","file":"0"},{"name":"s2","file":"1"},{"name":"s3","file":"2"}],"vars":[{"name":"id","take":["ipv4[-1].id"]},{"name":"ttl","take":["ipv4[-1].ttl"]}],"key":["id"],"window":100,"skew":10,"query":{"kind":"loop","hop":"ttl"},"profile":true}"#;

/// A record: its time in nanoseconds behind the first second of 1970, and the identification and the time to live of
/// its packet, which is no IP where the first is 0.
type Record = (u32, u8, u8);

/// Packets that pass one, two or three captures, of which one comes back; records that are no IP, one that is too late
/// and one that is as late as it may be; and packets whose times are equal.
const RECORDS: [&[Record]; 3] = [
    &[
        (100, 7, 64),
        (95, 8, 64),
        (80, 9, 64),
        (210, 7, 62),
        (330, 5, 20),
        (400, 6, 30),
        (400, 4, 9),
    ],
    &[
        (100, 9, 64),
        (120, 7, 63),
        (215, 7, 61),
        (330, 0, 0),
        (341, 5, 19),
        (450, 6, 29),
        (620, 3, 5),
    ],
    &[
        (150, 0, 0),
        (145, 8, 64),
        (200, 7, 61),
        (190, 7, 62),
        (201, 9, 64),
        (352, 5, 18),
        (400, 4, 8),
    ],
];

/// The job, and the report of its captures by the plain program.
#[derive(Drop)]
pub(crate) struct Plain {
    pub(crate) job: Job,
    pub(crate) report: Text,
}

impl Plain {
    pub(crate) fn new(alloc: Global) -> Result<Plain, Fail> {
        let job = Job::read(alloc, JOB.as_bytes()).ok().ok_or("refused")?;
        let mut folder = MemFolder::new(alloc, files(alloc)?, 64, Vec::new(alloc));
        let report = reported(alloc, &job, &mut folder)?;
        Ok(Plain { job, report })
    }
}

// The report of a job over its captures.
fn reported<F: Folder>(alloc: Global, job: &Job, folder: &mut F) -> Result<Text, Fail> {
    let gathered = gather_captures(alloc, job, folder)?;
    accepted_reportable();
    Ok(central_text(alloc, job, &gathered.accepted, &gathered.counts)?)
}

// The files of the captures.
fn files(alloc: Global) -> Result<FileList, Fail> {
    let mut files = FileList::new(alloc);
    for (c, records) in RECORDS.iter().enumerate() {
        let Ok(()) = files.push(file(alloc, c, records)?) else {
            return Err(Fail::from("no memory"));
        };
    }
    Ok(files)
}

// The file header of a capture in nanoseconds of raw IP.
const HEADER: [u8; 24] = [
    0x4d, 0x3c, 0xb2, 0xa1, 2, 0, 4, 0, 0, 0, 0, 0, 0, 0, 0, 0, 0, 0, 4, 0, 101, 0, 0, 0,
];

// The file of the capture that has this number. The last one ends inside a record.
fn file(alloc: Global, c: usize, records: &[Record]) -> Result<NamedFile, Fail> {
    let mut name = Text::new(alloc);
    name.push_decimal(c as u128)?;
    let mut bytes = HEADER.to_vec(alloc)?;
    for (time, id, ttl) in records {
        let [a, b, c, d] = time.to_le_bytes();
        let version = if *id == 0 { 0 } else { 0x45 };
        bytes.extend_from_slice(&[
            1, 0, 0, 0, a, b, c, d, 20, 0, 0, 0, 20, 0, 0, 0, version, 0, 0, 20, 0, *id, 0, 0,
            *ttl, 253, 0, 0, 10, 0, 0, 1, 10, 0, 0, 2,
        ])?;
    }
    if c == 2 {
        bytes.push(1)?;
    }
    Ok(NamedFile { name, bytes })
}
