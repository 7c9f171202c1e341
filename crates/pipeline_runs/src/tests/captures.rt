//! Jobs over three captures, the files of these, and the report of the plain program.
use central_report::{accepted_reportable, central_text};
use ds_base::{FileList, Folder, MemFolder, NamedFile, Text};
use job_inputs::gather_captures;
use std::alloc::Global;
use std::test::Fail;
use summary_spec::Job;

/// A record: its time in nanoseconds, and the identification and the time to live of its packet, which is no IP where the
/// first is 0.
pub(super) type Record = (u64, u8, u8);

/// How each job begins.
const HEAD: &str =
    r#"{"version":1,"captures":[{"name":"s1","file":"0"},{"name":"s2","file":"1"},{"name":"s3","file":"2"}],"vars":[{"name":"id","take":["ipv4[-1].id"]},{"name":"ttl","take":["ipv4[-1].ttl"]}],"key":["id"],"#;

/// The job whose text ends so.
pub(super) fn job_of(alloc: Global, end: &str) -> Result<Job, Fail> {
    let text = format!(in alloc; "{HEAD}{end}")?;
    match Job::read(alloc, text.as_bytes()) {
        Ok(job) => Ok(job),
        Err(_) => Err(Fail::from("the job is refused")),
    }
}

/// The files of the captures, of which the last one is cut by so many bytes.
pub(super) fn files_of(
    alloc: Global,
    captures: [&[Record]; 3],
    cut: usize,
) -> Result<FileList, Fail> {
    let mut files = FileList::new(alloc);
    for (c, records) in captures.iter().enumerate() {
        let mut file = named(alloc, c, records)?;
        if c == 2 {
            let kept = file.bytes.len().saturating_sub(cut);
            file.bytes.truncate(kept);
        }
        if files.push(file).is_err() {
            return Err(Fail::from("no memory"));
        }
    }
    Ok(files)
}

/// The report over them, by the plain program.
pub(super) fn report_of(alloc: Global, job: &Job, files: FileList) -> Result<Text, Fail> {
    let mut folder = MemFolder::new(alloc, files, 64, Vec::new(alloc));
    reported(alloc, job, &mut folder)
}

fn reported<F: Folder>(alloc: Global, job: &Job, folder: &mut F) -> Result<Text, Fail> {
    let gathered = gather_captures(alloc, job, folder)?;
    accepted_reportable();
    Ok(central_text(alloc, job, &gathered.accepted, &gathered.counts)?)
}

// The file header of a capture in nanoseconds of raw IP.
const FILE: [u8; 24] = [
    0x4d, 0x3c, 0xb2, 0xa1, 2, 0, 4, 0, 0, 0, 0, 0, 0, 0, 0, 0, 0, 0, 4, 0, 101, 0, 0, 0,
];

// The file of the capture that has this number.
fn named(alloc: Global, c: usize, records: &[Record]) -> Result<NamedFile, Fail> {
    let mut name = Text::new(alloc);
    name.push_decimal(c as u128)?;
    let mut bytes = FILE.to_vec(alloc)?;
    for record in records {
        push_record(&mut bytes, *record)?;
    }
    Ok(NamedFile { name, bytes })
}

/// Pushes one record.
pub(super) fn push_record(bytes: &mut Vec<u8>, record: Record) -> Result<(), Fail> {
    let (time, id, ttl) = record;
    let second = u32::try_from(time / 1_000_000_000).unwrap_or(0);
    let fraction = (time % 1_000_000_000) as u32;
    let version = if id == 0 { 0 } else { 0x45 };
    bytes.extend_from_slice(&second.to_le_bytes())?;
    bytes.extend_from_slice(&fraction.to_le_bytes())?;
    bytes.extend_from_slice(&[20, 0, 0, 0, 20, 0, 0, 0])?;
    bytes.extend_from_slice(&[
        version, 0, 0, 20, 0, id, 0, 0, ttl, 253, 0, 0, 10, 0, 0, 1, 10, 0, 0, 2,
    ])?;
    Ok(())
}

/// The file of one record.
pub(super) fn file_of_one(alloc: Global, name: &str, record: Record) -> Result<NamedFile, Fail> {
    let mut text = Text::new(alloc);
    text.push_str(name)?;
    let mut bytes = FILE.to_vec(alloc)?;
    push_record(&mut bytes, record)?;
    Ok(NamedFile { name: text, bytes })
}
