//! The command `sample`.

ghost use Rattle.std.specs.Prelude.{◌≡◌, [], false, None, Some, IsTrue, MatchResult};
ghost use Rattle.command_words.specs.Words.Asked.{AskedSample};
ghost use Rattle.ds_base.specs.Gain.{GainsPrefix};
ghost use Rattle.ds_base.specs.Outside.{FolderSeen, SinkStays};
ghost use Rattle.new_pipeline.specs.Shapes.{IsWithin};
ghost use Rattle.sample_run.specs.SampleLine.{sample_line};
ghost use Rattle.dshark_cli.specs.Links.{RowsSay};
ghost use Rattle.dshark_cli.specs.Rooms.{room_of};
ghost use Rattle.dshark_cli.specs.Run.{EndsOk, EndsBy};
ghost use Rattle.dshark_cli.specs.Shapes.{shape_of};

use crate::output::write_text;
use crate::run::shape_of;
use command_words::Sizes;
use ds_base::{Chooser, Sink};
use link_rows::RunRows;
use run_faults::RunFault;
use sample_run::run_sample;
use std::alloc::Global;

/// Writes the line of the sample of a number, whose report a pipeline of these sizes made. `links` gets the rows of its
/// links.
pub fn print_sample<O: Sink, C: Chooser>(
    alloc: Global,
    number: u64,
    sizes: Sizes,
    out: &mut O,
    chooser: &mut C,
    links: &mut RunRows,
) -> Result<(), RunFault>
    requires sizes { IsWithin (shape_of sizes) }
    requires no_links { (links.old.rows ≡ []) × (links.old.done ≡ false) }
    ensures out_stays { SinkStays (O.seen out.old) (O.seen out.new) }
    ensures prefix { IsTrue (O.seen out.old).told → GainsPrefix (O.seen out.old).written (O.seen out.new).written (sample_line number) }
    ensures ends { (folder : FolderSeen) → MatchResult result
        (λ _. EndsOk (room_of (AskedSample number sizes)) folder folder (O.seen out.old) (O.seen out.new))
        (EndsBy (room_of (AskedSample number sizes)) folder folder (O.seen out.old) (O.seen out.new)) }
    ensures links { (folder : FolderSeen) → MatchResult result
        (λ _. RowsSay (AskedSample number sizes) folder None links.new)
        (λ fault. RowsSay (AskedSample number sizes) folder (Some fault) links.new) }
{
    let Ok(sampled) = run_sample(alloc, number, shape_of(sizes), chooser) else {
        return Err(RunFault::OutOfMemory);
    };
    *links = sampled.rows;
    write_text(out, sampled.line.as_str())
}
