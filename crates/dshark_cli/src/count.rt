//! The command `count`.

ghost use Rattle.std.specs.Prelude.{◌≡◌, ◌≤◌, Some, IsTrue, MatchResult};
ghost use Rattle.command_words.specs.Words.Asked.{AskedCount};
ghost use Rattle.ds_base.specs.Gain.{GainsPrefix};
ghost use Rattle.ds_base.specs.Outside.{FolderStays, SinkStays};
ghost use Rattle.dshark_cli.specs.Faults.{of_count};
ghost use Rattle.dshark_cli.specs.Rooms.{room_of};
ghost use Rattle.dshark_cli.specs.Run.{EndsOk, EndsBy};

use crate::job_report::write_report;
use ds_base::{Folder, Sink};
use field_table::FieldRef;
use job_inputs::{CapturesFault, ReportFault};
use run_faults::RunFault;
use std::alloc::Global;
use summary_spec::Job;

/// Writes the report of the capture that is asked.
pub fn run_count<F: Folder, O: Sink>(
    alloc: Global,
    field: FieldRef,
    window: u64,
    file: &str,
    folder: &mut F,
    out: &mut O,
) -> Result<(), RunFault>
    requires { window ≤ 3600000000000 }
    ensures out_stays { SinkStays (O.seen out.old) (O.seen out.new) }
    ensures folder_stays { FolderStays (F.seen folder.old) (F.seen folder.new) }
    ensures prefix { IsTrue (F.seen folder.old).told → IsTrue (O.seen out.old).told →
        GainsPrefix (O.seen out.old).written (O.seen out.new).written ((room_of (AskedCount field window file.now)).due (F.seen folder.old)) }
    ensures ends { MatchResult result
        (λ _. EndsOk (room_of (AskedCount field window file.now)) (F.seen folder.old) (F.seen folder.new) (O.seen out.old) (O.seen out.new))
        (EndsBy (room_of (AskedCount field window file.now)) (F.seen folder.old) (F.seen folder.new) (O.seen out.old) (O.seen out.new)) }
{
    let Ok(job) = Job::count(alloc, field, window, file) else {
        return Err(RunFault::OutOfMemory);
    };
    match write_report(alloc, &job, folder, out) {
        Ok(()) => Ok(()),
        Err(fault) => Err(of_count(fault)),
    }
}

/// No job is opened, so that the only file has number 0.
fn of_count(fault: ReportFault) -> RunFault
    ensures { result ≡ of_count fault }
{
    match fault {
        ReportFault::Captures(CapturesFault::Malformed { capture, at, what }) => {
            RunFault::Malformed { capture, at, what }
        }
        ReportFault::Captures(CapturesFault::Unread { .. }) => RunFault::ReadFault { file: 0 },
        ReportFault::Captures(CapturesFault::OutOfMemory) => RunFault::OutOfMemory,
        ReportFault::Unwritten => RunFault::WriteFault,
    }
}
