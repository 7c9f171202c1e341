//! The run of a job.
ghost use Rattle.std.specs.Prelude.{◌≡◌, All, IfErr, MatchResult, length, map};
ghost use Rattle.ds_base.specs.Outside.{IsFresh, SinkStays};
ghost use Rattle.summary_spec.specs.Job.{declared_of};
ghost use Rattle.new_pipeline.specs.Shapes.{IsWithin, counts_of};
ghost use Rattle.pipeline_nodes.specs.Nodes.{IsNoLink};
ghost use Rattle.job_run.specs.Closing.{IsLeftOf};
ghost use Rattle.job_run.specs.Ends.{EndsWhole, EndsBy, WritesFront};
ghost use Rattle.job_run.specs.Rows.{AreRowsOf, AreBoundBelow};
ghost use Rattle.job_run.specs.Sources.{AllTell, SourcesStay, files_of};

use credit_link::NodeFault;
use ds_base::{Chooser, Sink, Source, SourceList};
use pipeline_core::{Closed, NodeAt, NotOpened, Pipeline, RunRows, Shape};
use pipeline_run::run_here;
use std::alloc::Global;
use summary_spec::Job;

/// What a run left.
pub struct Ran<S: Source> {
    /// How it ended: the fault of a node, where it did not end Ok.
    pub ended: Result<(), NodeFault>,
    /// The sources of all captures, in their order.
    pub sources: SourceList<S>,
    /// The rows of all links, or none where no pipeline was made.
    pub rows: RunRows,
}

/// Runs a job over the sources of its captures, of which there is one for each capture, in their order, and none has been
/// read. The report goes to the sink as it comes, by a pipeline of this shape, in the turns that the chooser asks for and
/// rounds of all nodes. What was written is a front of the report however it ends; where it ends Ok it is the report, and
/// nothing failed. All sources are handed back.
pub fn run_job<S: Source, O: Sink, C: Chooser>(
    alloc: Global,
    job: &Job,
    shape: Shape,
    sources: SourceList<S>,
    sink: &mut O,
    chooser: &mut C,
) -> Ran<S>
    requires captures { length sources.items ≡ length (declared_of job.now).captures }
    requires fresh { All IsFresh (map S.seen sources.items) }
    requires shape { IsWithin shape }
    ensures sink_stays { SinkStays (O.seen sink.old) (O.seen sink.new) }
    ensures sources_stay { SourcesStay (map S.seen sources.items) (map S.seen result.sources.items) }
    ensures written { WritesFront (declared_of job.now) (map S.seen sources.items) (O.seen sink.old) (O.seen sink.new) }
    ensures ends { MatchResult result.ended
        (λ _. EndsWhole (declared_of job.now) (map S.seen sources.items) (map S.seen result.sources.items) (O.seen sink.old) (O.seen sink.new) result.rows)
        (EndsBy (map S.seen sources.items) (map S.seen result.sources.items) (O.seen sink.old) (O.seen sink.new)) }
    ensures rows { AreRowsOf (counts_of shape) shape.credits result.rows }
    ensures bound { AllTell (map S.seen sources.items) → AreBoundBelow (declared_of job.now) (files_of (map S.seen sources.items)) (counts_of shape) result.rows }
{
    let Left {
        ended,
        sources,
        rows,
        sink,
    } = run_into(alloc, job, shape, sources, sink, chooser);
    let _ = sink;
    Ran {
        ended,
        sources,
        rows,
    }
}

/// What a run left, and the sink that was lent to it.
struct Left<'a, S: Source, O: Sink> {
    ended: Result<(), NodeFault>,
    sources: SourceList<S>,
    rows: RunRows,
    sink: &'a mut O,
}

// The run, which hands the sink back.
fn run_into<'a, S: Source, O: Sink, C: Chooser>(
    alloc: Global,
    job: &'a Job,
    shape: Shape,
    sources: SourceList<S>,
    sink: &'a mut O,
    chooser: &mut C,
) -> Left<'a, S, O>
    requires captures { length sources.items ≡ length (declared_of job.now).captures }
    requires fresh { All IsFresh (map S.seen sources.items) }
    requires shape { IsWithin shape }
    ensures lent { result.sink.ghost_name ≡ sink.entry.ghost_name }
    ensures sink_stays { SinkStays (O.seen sink.old) (O.seen result.sink.now) }
    ensures sources_stay { SourcesStay (map S.seen sources.items) (map S.seen result.sources.items) }
    ensures written { WritesFront (declared_of job.now) (map S.seen sources.items) (O.seen sink.old) (O.seen result.sink.now) }
    ensures ends { MatchResult result.ended
        (λ _. EndsWhole (declared_of job.now) (map S.seen sources.items) (map S.seen result.sources.items) (O.seen sink.old) (O.seen result.sink.now) result.rows)
        (EndsBy (map S.seen sources.items) (map S.seen result.sources.items) (O.seen sink.old) (O.seen result.sink.now)) }
    ensures rows { AreRowsOf (counts_of shape) shape.credits result.rows }
    ensures bound { AllTell (map S.seen sources.items) → AreBoundBelow (declared_of job.now) (files_of (map S.seen sources.items)) (counts_of shape) result.rows }
{
    match Pipeline::open(alloc, job, shape, sources, sink) {
        Ok(pipeline) => {
            let (ended, closed) = run_and_close(pipeline, chooser);
            let Closed {
                sources,
                rows,
                sink,
            } = closed;
            Left {
                ended: fault_of(ended),
                sources,
                rows,
                sink,
            }
        }
        Err(back) => {
            let NotOpened { sources, sink } = back;
            Left {
                ended: Err(NodeFault::OutOfMemory),
                sources,
                rows: RunRows::new(alloc),
                sink,
            }
        }
    }
}

// Runs an opened pipeline and closes it.
fn run_and_close<'a, S: Source, O: Sink, C: Chooser>(
    opened: Pipeline<'a, S, O>,
    chooser: &mut C,
) -> (Result<(), NodeAt>, Closed<'a, S, O>)
    ensures left { IsLeftOf opened.entry result.0 (map S.seen result.1.sources.items) (O.seen result.1.sink.now) result.1.rows }
    ensures no_link { IfErr result.0 (λ at. IsNoLink at.fault) }
    ensures lent { result.1.sink.ghost_name ≡ opened.entry.lent }
{
    let mut pipeline = opened;
    let ended = run_here(&mut pipeline, chooser);
    // It stands, as it does between turns, and no node has met a fault of a link.
    let _ = pipeline.node_count();
    let _ = pipeline.fault();
    (ended, pipeline.close())
}

// The fault alone.
fn fault_of(ended: Result<(), NodeAt>) -> Result<(), NodeFault>
    ensures { MatchResult ended (λ done. result ≡ Ok done) (λ at. result ≡ Err at.fault) }
{
    match ended {
        Ok(()) => Ok(()),
        Err(at) => Err(at.fault),
    }
}
