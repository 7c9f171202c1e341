//! The report of a job over its captures: gathered, put together, and written as the last step.

ghost use Rattle.std.specs.Prelude.{◌≡◌, IsTrue, MatchResult};
ghost use Rattle.ds_base.specs.Gain.{GainsPrefix};
ghost use Rattle.ds_base.specs.Outside.{FolderStays, SinkStays};
ghost use Rattle.job_inputs.specs.Captures.{StopsCaptures};
ghost use Rattle.summary_spec.specs.Job.{declared_of};
ghost use Rattle.job_inputs.specs.Reports.{report_in, WritesReport};
ghost use Rattle.dshark_cli.specs.Reports.{ReportsCaptures, StopsReport};

use central_report::{accepted_reportable, central_text};
use ds_base::{Folder, Sink, Text};
use job_inputs::{CapturesFault, ReportFault, gather_captures};
use output_text::write_all;
use std::alloc::Global;
use summary_spec::Job;

/// Writes the report of a job over its captures. All captures are read to their ends before the first
/// byte is written.
pub fn write_report<F: Folder, O: Sink>(
    alloc: Global,
    job: &Job,
    folder: &mut F,
    out: &mut O,
) -> Result<(), ReportFault>
    ensures out_stays { SinkStays (O.seen out.old) (O.seen out.new) }
    ensures folder_stays { FolderStays (F.seen folder.old) (F.seen folder.new) }
    ensures prefix { IsTrue (F.seen folder.old).told → IsTrue (O.seen out.old).told →
        GainsPrefix (O.seen out.old).written (O.seen out.new).written (report_in (F.seen folder.old) (declared_of job.now)) }
    ensures ends { MatchResult result
        (λ _. WritesReport (declared_of job.now) (F.seen folder.old) (F.seen folder.new) (O.seen out.old) (O.seen out.new))
        (StopsReport (declared_of job.now) (F.seen folder.old) (F.seen folder.new) (O.seen out.old) (O.seen out.new)) }
{
    let text = match report_captures(alloc, job, folder) {
        Ok(text) => text,
        Err(fault) => return Err(ReportFault::Captures(fault)),
    };
    match write_all(out, text.as_str().as_bytes()) {
        Ok(()) => Ok(()),
        Err(_) => Err(ReportFault::Unwritten),
    }
}

/// The report of a job over its captures.
fn report_captures<F: Folder>(
    alloc: Global,
    job: &Job,
    folder: &mut F,
) -> Result<Text, CapturesFault>
    ensures stays { FolderStays (F.seen folder.old) (F.seen folder.new) }
    ensures ends { MatchResult result
        (λ text. ReportsCaptures (declared_of job.now) (F.seen folder.old) (F.seen folder.new) text.items)
        (StopsCaptures (declared_of job.now).files (F.seen folder.old) (F.seen folder.new)) }
{
    let gathered = gather_captures(alloc, job, folder)?;
    // By this law the list is such as the report asks for.
    accepted_reportable();
    match central_text(alloc, job, &gathered.accepted, &gathered.counts) {
        Ok(text) => Ok(text),
        Err(_) => Err(CapturesFault::OutOfMemory),
    }
}
