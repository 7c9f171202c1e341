//! The sample of a number.

ghost use Rattle.std.specs.Prelude.{◌≡◌, ◌<◌, ◌^◌, All, IfOk, length, map};
ghost use Rattle.ds_base.specs.Files.{named_bytes};
ghost use Rattle.summary_spec.specs.Job.{declared_of};
ghost use Rattle.trace_gen.specs.Captures.{all_seen, named_file, point_name, points, sample_files};
ghost use Rattle.trace_gen.specs.SampleJob.{sample_job};

use crate::capture_file::capture_file;
use crate::sample_job::sample_job;
use crate::sighting::{POINTS, SightingList};
use crate::walk::all_seen;
use ds_base::{FileList, NamedFile, OutOfMemory, Text};
use job_table::{copied, put};
use std::alloc::Global;
use summary_spec::Job;

/// What eight capture points see of 20,000 packets, and the job that diagnoses it.
#[derive(Drop)]
pub struct Sample {
    /// The job, with the captures s0 to s7.
    pub job: Job,
    /// The capture files, in the order of the captures. Each has the name of its capture.
    pub files: FileList,
    /// How many records all files have together.
    pub records: u64,
}

/// The sample of a number: equal numbers have equal samples, byte by byte. It is refused for want of memory alone.
/// Besides the files it takes memory for a list of all that is seen, at most 80,000 items of 16 bytes.
pub fn make(alloc: Global, number: u64) -> Result<Sample, OutOfMemory>
    ensures job { IfOk result (λ sample. declared_of sample.job ≡ sample_job) }
    ensures files { IfOk result (λ sample. map named_bytes sample.files.items ≡ sample_files number) }
    ensures records { IfOk result (λ sample. sample.records ≡ length (all_seen number)) }
{
    let job = sample_job(alloc)?;
    let seen = all_seen(alloc, number)?;
    let files = capture_files(alloc, &seen)?;
    Ok(Sample {
        job,
        files,
        records: seen.len(),
    })
}

/// The files of all capture points.
fn capture_files(alloc: Global, seen: &SightingList) -> Result<FileList, OutOfMemory>
    requires { All (λ s. s.time < 2 ^ 35) seen.now.items }
    ensures { IfOk result (λ files. map named_bytes files.items ≡ map (named_file seen.now.items) points) }
{
    let mut files = FileList::new(alloc);
    for point in 0..POINTS {
        put(&mut files, named_file(alloc, point, seen)?)?;
    }
    Ok(files)
}

/// The file of a capture point, by its name.
fn named_file(alloc: Global, point: u32, seen: &SightingList) -> Result<NamedFile, OutOfMemory>
    requires { All (λ s. s.time < 2 ^ 35) seen.now.items }
    ensures { IfOk result (λ file. named_bytes file ≡ named_file seen.now.items point) }
{
    let name = point_name(alloc, point)?;
    let bytes = capture_file(alloc, point, seen)?;
    Ok(NamedFile { name, bytes })
}

/// The name of a capture point: s0 to s7.
pub(crate) fn point_name(alloc: Global, point: u32) -> Result<Text, OutOfMemory>
    ensures { IfOk result (λ name. name.items ≡ point_name point) }
{
    let mut name = copied(alloc, "s")?;
    name.push_decimal(u128::from(point))?;
    Ok(name)
}
