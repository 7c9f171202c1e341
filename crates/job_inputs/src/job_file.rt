//! The file of a job.

ghost use Rattle.std.specs.Prelude.{◌≡◌, ◌≤◌, IsTrue, IfOk, MatchResult, length, take};
ghost use Rattle.ds_base.specs.Faults.{Rose};
ghost use Rattle.ds_base.specs.Outside.{IsFresh, FolderStays, SourceStays};
ghost use Rattle.job_inputs.specs.JobFile.{TakesJob, StopsTaking, ReadsJob, StopsJob, TakesAtMost};

use crate::fault::JobFileFault;
use ds_base::{Failed, Folder, Source};
use input_files::open_file;
use job_values::ReadJobFault;
use std::alloc::Global;
use summary_spec::Job;

/// How many bytes of a job's file are read at most: one more than a job may have, so that a longer one
/// is refused.
const MOST: usize = 1_048_577;

/// Reads the job in the file of that name, and gives the file back however that ends.
///
/// `Bad` with its first fault where the file declares no job, `Unread` where it is not there or a call of it
/// failed, and `OutOfMemory`.
pub fn read_job<F: Folder>(alloc: Global, file: &str, folder: &mut F) -> Result<Job, JobFileFault>
    ensures stays { FolderStays (F.seen folder.old) (F.seen folder.new) }
    ensures ends { MatchResult result
        (ReadsJob (F.seen folder.old) (F.seen folder.new) file.now)
        (StopsJob (F.seen folder.old) (F.seen folder.new) file.now) }
{
    let mut source = open_file(folder, file)?;
    let job = take_job(alloc, &mut source);
    folder.give_back(source);
    job
}

/// Reads the job that a source has, of which nothing was read yet. At most 1,048,577 bytes are read, which is
/// one more than a job may have.
///
/// The faults are those of `read_job`.
pub fn take_job<S: Source>(alloc: Global, source: &mut S) -> Result<Job, JobFileFault>
    requires { IsFresh (S.seen source.old) }
    ensures stays { SourceStays (S.seen source.old) (S.seen source.new) }
    ensures most { TakesAtMost 1048577 (S.seen source.old) (S.seen source.new) }
    ensures ends { MatchResult result
        (TakesJob (S.seen source.old) (S.seen source.new))
        (StopsTaking (S.seen source.old) (S.seen source.new)) }
{
    let Ok(mut buffer) = vec![in alloc; 0u8; MOST] else {
        return Err(JobFileFault::OutOfMemory);
    };
    let Ok(len) = fill(source, buffer.as_mut_slice()) else {
        return Err(JobFileFault::Unread);
    };
    match Job::read(alloc, &buffer[..len]) {
        Ok(job) => Ok(job),
        Err(ReadJobFault::Bad(fault)) => Err(JobFileFault::Bad(fault)),
        Err(ReadJobFault::OutOfMemory) => Err(JobFileFault::OutOfMemory),
    }
}

/// Reads a source from its first byte on until the buffer is full or the source ends, and answers how
/// many bytes were read.
fn fill<S: Source>(source: &mut S, buffer: &mut [u8]) -> Result<usize, Failed>
    requires { IsFresh (S.seen source.old) }
    ensures stays { SourceStays (S.seen source.old) (S.seen source.new) }
    ensures faults { MatchResult result
        (λ _. (S.seen source.new).faults ≡ (S.seen source.old).faults)
        (λ _. Rose (S.seen source.old).faults (S.seen source.new).faults) }
    ensures within { IfOk result (λ n. n ≤ length buffer.old) }
    ensures most { TakesAtMost (length buffer.old) (S.seen source.old) (S.seen source.new) }
    ensures front { IsTrue (S.seen source.old).told →
        IfOk result (λ n. take n buffer.new ≡ take (length buffer.old) (S.seen source.old).whole) }
{
    let mut len = 0;
    'pieces: while len < buffer.len() {
        let n = source.read(&mut buffer[len..])?;
        if n == 0 {
            return Ok(len);
        }
        len += n;
    }
    Ok(len)
}
