//! Some jobs over three captures, and their reports.
use super::nodes::stream;
use central_report::{accepted_reportable, central_text};
use ds_base::{FileList, Folder, MemFolder, NamedFile, Text};
use job_inputs::gather_captures;
use node_frames::Frame;
use std::alloc::Global;
use std::test::Fail;
use summary_spec::Job;

/// A record: its time in nanoseconds behind the first second of 1970, and the identification and the time to live of
/// its packet, which is no IP where the first is 0.
type Record = (u32, u8, u8);

/// The end of a job, the records of its captures, of which the last file ends inside one more, and the end of the
/// report.
pub(super) type Example = (&'static str, [&'static [Record]; 3], &'static str);

/// How each job begins.
const HEAD: &str =
    r#"{"version":1,"captures":[{"name":"s1","file":"0"},{"name":"s2","file":"1"},{"name":"s3","file":"2"}],"vars":[{"name":"id","take":["ipv4[-1].id"]},{"name":"ttl","take":["ipv4[-1].ttl"]}],"key":["id"],"#;

/// First, packets that pass two or three captures, of which one is lost. Then records that come too late, and as late
/// as they may; members that are a window apart, and more; and a loop. Then captures without records.
pub(super) const EXAMPLES: [Example; 3] = [
    (
        r#""window":1000,"skew":0,"query":{"kind":"drop","exits":["s3"]}}"#,
        [
            &[(0, 1, 64), (2000, 2, 64), (3000, 3, 64)],
            &[(2010, 2, 63), (3010, 3, 63), (4000, 4, 64)],
            &[(10, 1, 63), (2020, 2, 62), (4010, 4, 63)],
        ],
        "E groups=4 summaries=9\n",
    ),
    (
        r#""window":100,"skew":10,"query":{"kind":"loop","hop":"ttl"}}"#,
        [
            &[(100, 7, 64), (95, 8, 64), (80, 9, 64), (210, 7, 62)],
            &[(100, 9, 64), (120, 7, 63), (215, 7, 61), (330, 0, 0)],
            &[
                (150, 0, 0),
                (145, 8, 64),
                (200, 7, 61),
                (190, 7, 62),
                (201, 9, 64),
                (320, 8, 64),
            ],
        ],
        "G 1000000095 s1 1 key=8 n=2 ok\n\
        G 1000000100 s1 0 key=7 n=4 loop s3 62 61\n\
        G 1000000100 s2 0 key=9 n=1 ok\n\
        G 1000000201 s3 4 key=9 n=1 ok\n\
        G 1000000210 s1 3 key=7 n=2 ok\n\
        G 1000000320 s3 5 key=8 n=1 ok\n\
        C s1 records=4 unmatched=0 late=1 accepted=3 whole\n\
        C s2 records=4 unmatched=1 late=0 accepted=3 whole\n\
        C s3 records=6 unmatched=1 late=0 accepted=5 cut\n\
        E groups=6 summaries=11\n",
    ),
    (
        r#""window":1000,"skew":1000,"query":{"kind":"loop","hop":"ttl"}}"#,
        [&[(2000, 1, 64), (1000, 2, 64), (999, 3, 64)], &[], &[]],
        "E groups=2 summaries=2\n",
    ),
];

/// The job that ends so.
pub(super) fn job_of(alloc: Global, end: &str) -> Result<Job, Fail> {
    let text = format!(in alloc; "{HEAD}{end}")?;
    match Job::read(alloc, text.as_bytes()) {
        Ok(job) => Ok(job),
        Err(_) => Err(Fail::from("the job is refused")),
    }
}

/// The files of the captures.
pub(super) fn files_of(alloc: Global, captures: &[&[Record]; 3]) -> Result<FileList, Fail> {
    let mut files = FileList::new(alloc);
    for (c, records) in captures.iter().enumerate() {
        if files.push(named(alloc, c, records)?).is_err() {
            return Err(Fail::from("no memory"));
        }
    }
    Ok(files)
}

/// What a parser puts of each of them.
pub(super) fn streams_of(
    alloc: Global,
    job: &Job,
    files: &FileList,
) -> Result<Vec<Vec<Frame>>, Fail> {
    let mut streams = Vec::new(alloc);
    for c in 0..3u32 {
        if u64::from(c) < files.len() {
            let bytes = files.get(u64::from(c)).bytes.as_slice();
            streams.push(stream(alloc, job, c, bytes)?)?;
        }
    }
    Ok(streams)
}

/// The report over them, by the plain program.
pub(super) fn report_of(alloc: Global, job: &Job, files: FileList) -> Result<Text, Fail> {
    let mut folder = MemFolder::new(alloc, files, 64, Vec::new(alloc));
    reported(alloc, job, &mut folder)
}

fn reported<F: Folder>(alloc: Global, job: &Job, folder: &mut F) -> Result<Text, Fail> {
    let gathered = gather_captures(alloc, job, folder)?;
    accepted_reportable();
    Ok(central_text(alloc, job, &gathered.accepted, &gathered.counts)?)
}

// The file header of a capture in nanoseconds of raw IP.
const FILE: [u8; 24] = [
    0x4d, 0x3c, 0xb2, 0xa1, 2, 0, 4, 0, 0, 0, 0, 0, 0, 0, 0, 0, 0, 0, 4, 0, 101, 0, 0, 0,
];

// The file of the capture that has this number.
fn named(alloc: Global, c: usize, records: &[Record]) -> Result<NamedFile, Fail> {
    let mut name = Text::new(alloc);
    name.push_decimal(c as u128)?;
    let mut bytes = FILE.to_vec(alloc)?;
    for (time, id, ttl) in records {
        let [a, b, c, d] = time.to_le_bytes();
        let version = if *id == 0 { 0 } else { 0x45 };
        bytes.extend_from_slice(&[
            1, 0, 0, 0, a, b, c, d, 20, 0, 0, 0, 20, 0, 0, 0, version, 0, 0, 20, 0, *id, 0, 0,
            *ttl, 253, 0, 0, 10, 0, 0, 1, 10, 0, 0, 2,
        ])?;
    }
    if c == 2 {
        bytes.push(1)?;
    }
    Ok(NamedFile { name, bytes })
}
