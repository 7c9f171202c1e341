//! The command `check`.

ghost use Rattle.std.specs.Prelude.{◌≡◌, ◌++◌, Some, IsTrue, IfOk, MatchResult, codes};
ghost use Rattle.command_words.specs.Words.Asked.{AskedCheck};
ghost use Rattle.ds_base.specs.Gain.{GainsPrefix};
ghost use Rattle.ds_base.specs.Outside.{FolderStays, SinkStays};
ghost use Rattle.summary_spec.specs.Canonical.{canonical};
ghost use Rattle.summary_spec.specs.Job.{declared_of};
ghost use Rattle.dshark_cli.specs.Rooms.{room_of};
ghost use Rattle.dshark_cli.specs.Run.{EndsOk, EndsBy};

use crate::faults::of_job;
use crate::output::write_text;
use ds_base::{Folder, OutOfMemory, Sink, Text};
use job_inputs::read_job;
use run_faults::RunFault;
use std::alloc::Global;
use summary_spec::Job;

/// Writes the canonical text of a job, on a line.
pub fn run_check<F: Folder, O: Sink>(
    alloc: Global,
    file: &str,
    folder: &mut F,
    out: &mut O,
) -> Result<(), RunFault>
    ensures out_stays { SinkStays (O.seen out.old) (O.seen out.new) }
    ensures folder_stays { FolderStays (F.seen folder.old) (F.seen folder.new) }
    ensures prefix { IsTrue (F.seen folder.old).told → IsTrue (O.seen out.old).told →
        GainsPrefix (O.seen out.old).written (O.seen out.new).written ((room_of (AskedCheck file.now)).due (F.seen folder.old)) }
    ensures ends { MatchResult result
        (λ _. EndsOk (room_of (AskedCheck file.now)) (F.seen folder.old) (F.seen folder.new) (O.seen out.old) (O.seen out.new))
        (EndsBy (room_of (AskedCheck file.now)) (F.seen folder.old) (F.seen folder.new) (O.seen out.old) (O.seen out.new)) }
{
    let job = match read_job(alloc, file, folder) {
        Ok(job) => job,
        Err(fault) => return Err(of_job(fault)),
    };
    let Ok(text) = line_of(alloc, &job) else {
        return Err(RunFault::OutOfMemory);
    };
    write_text(out, text.as_str())
}

/// The canonical text of a job, and a newline.
fn line_of(alloc: Global, job: &Job) -> Result<Text, OutOfMemory>
    ensures { IfOk result (λ text. text.items ≡ canonical (declared_of job.now) ++ codes "\n") }
{
    let mut text = job.print(alloc)?;
    text.push_str("\n")?;
    Ok(text)
}
