//! The command `run`.

ghost use Rattle.std.specs.Prelude.{◌≡◌, [], false, None, Some, IsTrue, IfErr, MatchResult};
ghost use Rattle.command_words.specs.Words.Asked.{AskedRun};
ghost use Rattle.ds_base.specs.Gain.{GainsPrefix};
ghost use Rattle.ds_base.specs.Outside.{FolderStays, SinkStays};
ghost use Rattle.new_pipeline.specs.Shapes.{IsWithin};
ghost use Rattle.dshark_cli.specs.Links.{RowsSay};
ghost use Rattle.dshark_cli.specs.Naming.{NamesFault};
ghost use Rattle.dshark_cli.specs.Rooms.{room_of};
ghost use Rattle.dshark_cli.specs.Run.{EndsOk, EndsBy};
ghost use Rattle.dshark_cli.specs.Shapes.{shape_of};

use crate::central::stop_by;
use crate::faults::of_job;
use command_words::Sizes;
use ds_base::{Chooser, Folder, Sink};
use job_inputs::read_job;
use link_rows::RunRows;
use new_pipeline::Shape;
use report_run::{Streamed, stream_report};
use run_faults::Stop;
use std::alloc::Global;

/// Writes the report of a job over its captures while they are read, by a pipeline of these sizes. `links` gets the rows of
/// its links.
pub fn run_run<F: Folder, O: Sink, C: Chooser>(
    alloc: Global,
    file: &str,
    sizes: Sizes,
    folder: &mut F,
    out: &mut O,
    chooser: &mut C,
    links: &mut RunRows,
) -> Result<(), Stop>
    requires sizes { IsWithin (shape_of sizes) }
    requires no_links { (links.old.rows ≡ []) × (links.old.done ≡ false) }
    ensures out_stays { SinkStays (O.seen out.old) (O.seen out.new) }
    ensures folder_stays { FolderStays (F.seen folder.old) (F.seen folder.new) }
    ensures prefix { IsTrue (F.seen folder.old).told → IsTrue (O.seen out.old).told →
        GainsPrefix (O.seen out.old).written (O.seen out.new).written ((room_of (AskedRun file.now sizes)).due (F.seen folder.old)) }
    ensures named { IfErr result (λ stop. NamesFault (room_of (AskedRun file.now sizes)).opens (F.seen folder.old) stop.name stop.fault) }
    ensures ends { MatchResult result
        (λ _. EndsOk (room_of (AskedRun file.now sizes)) (F.seen folder.old) (F.seen folder.new) (O.seen out.old) (O.seen out.new))
        (λ stop. EndsBy (room_of (AskedRun file.now sizes)) (F.seen folder.old) (F.seen folder.new) (O.seen out.old) (O.seen out.new) stop.fault) }
    ensures links { MatchResult result
        (λ _. RowsSay (AskedRun file.now sizes) (F.seen folder.old) None links.new)
        (λ stop. RowsSay (AskedRun file.now sizes) (F.seen folder.old) (Some stop.fault) links.new) }
{
    let job = match read_job(alloc, file, folder) {
        Ok(job) => job,
        Err(fault) => return Err(Stop::unnamed(of_job(fault))),
    };
    let Streamed { ended, rows } = stream_report(
        alloc,
        &job,
        shape_of(sizes),
        folder,
        out,
        chooser,
    );
    *links = rows;
    match ended {
        Ok(()) => Ok(()),
        Err(fault) => Err(stop_by(&job, fault)),
    }
}

/// The shape of a pipeline of these sizes.
pub fn shape_of(sizes: Sizes) -> Shape
    ensures { result ≡ shape_of sizes }
{
    Shape {
        parsers: sizes.parsers,
        groupers: sizes.groupers,
        processors: sizes.processors,
        credits: sizes.credits,
    }
}
