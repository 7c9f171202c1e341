//! The report of a job, written as it comes.
ghost use Rattle.std.specs.Prelude.{◌≡◌, ℕ, List, true, IsTrue, IfOk, IfErr, MatchResult};
ghost use Rattle.ds_base.specs.Gain.{GainsPrefix};
ghost use Rattle.ds_base.specs.Outside.{FolderStays, SinkStays};
ghost use Rattle.job_inputs.specs.Captures.{AreFiles};
ghost use Rattle.job_inputs.specs.Reports.{report_in, WritesReport};
ghost use Rattle.summary_spec.specs.Job.{declared_of};
ghost use Rattle.new_pipeline.specs.Shapes.{IsWithin, counts_of};
ghost use Rattle.pipeline_nodes.specs.Nodes.{IsNoLink};
ghost use Rattle.job_run.specs.Rows.{AreRowsOf, AreBoundBelow};
ghost use Rattle.report_run.specs.Faults.{of_node};
ghost use Rattle.report_run.specs.Streaming.{StopsStream};

use crate::giving::give_back_read;
use crate::opening::open_listed;
use credit_link::NodeFault;
use ds_base::{Chooser, Folder, Sink};
use job_inputs::{CapturesFault, ReportFault};
use job_run::{Ran, run_job};
use link_rows::RunRows;
use new_pipeline::Shape;
use std::alloc::Global;
use summary_spec::Job;

/// How the writing of a report ended, and the rows of the pipeline's links: none where no pipeline was made.
pub struct Streamed {
    pub ended: Result<(), ReportFault>,
    pub rows: RunRows,
}

/// Writes the report of a job over its captures by a pipeline of this shape. All captures are opened, in order, before one
/// is read; each is read in pieces of at most 4,096 bytes, and each answer leaves as soon as no further copy can come. What
/// was written is a front of the report however it ends, and the report where it ends Ok. All captures are given back.
pub fn stream_report<F: Folder, O: Sink, C: Chooser>(
    alloc: Global,
    job: &Job,
    shape: Shape,
    folder: &mut F,
    out: &mut O,
    chooser: &mut C,
) -> Streamed
    requires shape { IsWithin shape }
    ensures out_stays { SinkStays (O.seen out.old) (O.seen out.new) }
    ensures folder_stays { FolderStays (F.seen folder.old) (F.seen folder.new) }
    ensures prefix { IsTrue (F.seen folder.old).told → IsTrue (O.seen out.old).told →
        GainsPrefix (O.seen out.old).written (O.seen out.new).written (report_in (F.seen folder.old) (declared_of job.now)) }
    ensures ends { MatchResult result.ended
        (λ _. WritesReport (declared_of job.now) (F.seen folder.old) (F.seen folder.new) (O.seen out.old) (O.seen out.new))
        (StopsStream (declared_of job.now) (F.seen folder.old) (F.seen folder.new) (O.seen out.old) (O.seen out.new)) }
    ensures rows { AreRowsOf (counts_of shape) shape.credits result.rows }
    ensures done { IfOk result.ended (λ _. result.rows.done ≡ true) }
    ensures bound { (files : List (List ℕ)) → IsTrue (F.seen folder.old).told → AreFiles (F.seen folder.old) (declared_of job.now).files files →
        AreBoundBelow (declared_of job.now) files (counts_of shape) result.rows }
{
    match open_listed(alloc, job, folder) {
        Ok(sources) => {
            let Ran {
                ended,
                sources,
                rows,
            } = run_job(alloc, job, shape, sources, out, chooser);
            give_back_read(folder, sources);
            Streamed {
                ended: fault_of(ended),
                rows,
            }
        }
        Err(fault) => Streamed {
            ended: Err(ReportFault::Captures(fault)),
            rows: RunRows::new(alloc),
        },
    }
}

// How the report ended by how the run did.
fn fault_of(ended: Result<(), NodeFault>) -> Result<(), ReportFault>
    requires { IfErr ended IsNoLink }
    ensures { MatchResult ended (λ done. result ≡ Ok done) (λ bad. result ≡ Err (of_node bad)) }
{
    match ended {
        Ok(()) => Ok(()),
        Err(NodeFault::Malformed { capture, bad }) => {
            Err(ReportFault::Captures(CapturesFault::Malformed {
                capture,
                at: bad.at,
                what: bad.what,
            }))
        }
        Err(NodeFault::Read { capture }) => {
            Err(ReportFault::Captures(CapturesFault::Unread { capture }))
        }
        Err(NodeFault::Write) => Err(ReportFault::Unwritten),
        // The links of a pipeline have none.
        Err(NodeFault::Link { .. }) => unreachable!(),
        Err(NodeFault::OutOfMemory) => Err(ReportFault::Captures(CapturesFault::OutOfMemory)),
    }
}
