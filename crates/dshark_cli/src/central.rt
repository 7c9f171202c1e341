//! The command `central`.

ghost use Rattle.std.specs.Prelude.{◌≡◌, ◌<◌, Some, IsTrue, IfErr, MatchResult, length};
ghost use Rattle.command_words.specs.Words.Asked.{AskedCentral};
ghost use Rattle.ds_base.specs.Gain.{GainsPrefix};
ghost use Rattle.ds_base.specs.Outside.{FolderStays, SinkStays};
ghost use Rattle.summary_spec.specs.Job.{declared_of};
ghost use Rattle.job_inputs.specs.Jobs.{IsDeclared};
ghost use Rattle.dshark_cli.specs.Faults.{of_report};
ghost use Rattle.dshark_cli.specs.Naming.{IfMalformed, IsNameAt, NamesFault};
ghost use Rattle.dshark_cli.specs.Reports.{IfCapture};
ghost use Rattle.dshark_cli.specs.Rooms.{room_of};
ghost use Rattle.dshark_cli.specs.Run.{EndsOk, EndsBy};

use crate::faults::of_job;
use crate::job_report::write_report;
use ds_base::{Folder, Sink};
use job_inputs::{CapturesFault, ReportFault, read_job};
use run_faults::{CaptureName, RunFault, Stop};
use std::alloc::Global;
use summary_spec::Job;

/// Writes the report of a job over its captures.
pub fn run_central<F: Folder, O: Sink>(
    alloc: Global,
    file: &str,
    folder: &mut F,
    out: &mut O,
) -> Result<(), Stop>
    ensures out_stays { SinkStays (O.seen out.old) (O.seen out.new) }
    ensures folder_stays { FolderStays (F.seen folder.old) (F.seen folder.new) }
    ensures prefix { IsTrue (F.seen folder.old).told → IsTrue (O.seen out.old).told →
        GainsPrefix (O.seen out.old).written (O.seen out.new).written ((room_of (AskedCentral file.now)).due (F.seen folder.old)) }
    ensures named { IfErr result (λ stop. NamesFault (room_of (AskedCentral file.now)).opens (F.seen folder.old) stop.name stop.fault) }
    ensures ends { MatchResult result
        (λ _. EndsOk (room_of (AskedCentral file.now)) (F.seen folder.old) (F.seen folder.new) (O.seen out.old) (O.seen out.new))
        (λ stop. EndsBy (room_of (AskedCentral file.now)) (F.seen folder.old) (F.seen folder.new) (O.seen out.old) (O.seen out.new) stop.fault) }
{
    let job = match read_job(alloc, file, folder) {
        Ok(job) => job,
        Err(fault) => return Err(Stop::unnamed(of_job(fault))),
    };
    match write_report(alloc, &job, folder, out) {
        Ok(()) => Ok(()),
        Err(fault) => Err(stop_by(&job, fault)),
    }
}

/// The stop by a fault of a job's report, with the name of the capture where one is malformed. File k + 1
/// is that of capture k.
#[tactic(auto, using(job_inputs::proofs::JobCaptures::few_captures))]
pub fn stop_by(job: &Job, fault: ReportFault) -> Stop
    requires declared { IsDeclared (declared_of job.now) }
    requires capture { IfCapture fault (λ capture. capture < length job.now.names.captures.items) }
    ensures fault { result.fault ≡ of_report fault }
    ensures name { IfMalformed (of_report fault) (IsNameAt (declared_of job.now).captures result.name) }
{
    match fault {
        ReportFault::Captures(CapturesFault::Malformed { capture, at, what }) => Stop {
            fault: RunFault::Malformed { capture, at, what },
            name: name_of(job, capture),
        },
        ReportFault::Captures(CapturesFault::Unread { capture }) => {
            Stop::unnamed(RunFault::ReadFault { file: capture + 1 })
        }
        ReportFault::Captures(CapturesFault::OutOfMemory) => Stop::unnamed(RunFault::OutOfMemory),
        ReportFault::Unwritten => Stop::unnamed(RunFault::WriteFault),
    }
}

/// The name of a capture.
fn name_of(job: &Job, capture: u32) -> CaptureName
    requires declared { IsDeclared (declared_of job.now) }
    requires capture { capture < length job.now.names.captures.items }
    ensures { IsNameAt (declared_of job.now).captures result capture }
{
    CaptureName::new(
        job.names
            .captures
            .get(u64::from(capture))
            .as_str()
            .as_bytes(),
    )
}
