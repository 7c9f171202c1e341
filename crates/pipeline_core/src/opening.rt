//! Opening a pipeline.
ghost use Rattle.std.specs.Prelude.{◌≡◌, ◌≤◌, ◌*◌, ◌+◌, [], All, None, IfOk, IfErr, length, map};
ghost use Rattle.ds_base.specs.Outside.{IsFresh};
ghost use Rattle.summary_spec.specs.Job.{declared_of};
ghost use Rattle.net_law.specs.Nets.{NetStands};
ghost use Rattle.new_pipeline.specs.Opening.{IsNewOf};
ghost use Rattle.new_pipeline.specs.Shapes.{IsWithin, counts_of};
ghost use Rattle.pipeline_law.specs.Rows.{link_count};
ghost use Rattle.pipeline_core.specs.Pipelines.{AreSourcesOf};

use crate::Pipeline;
use credit_link::LinkRows;
use ds_base::{ItemList, OutOfMemory, Sink, Source, SourceList};
use new_pipeline::{NewNodes, NotOpened, Shape, open_nodes};
use pipeline_nodes::Nodes;
use std::alloc::Global;
use summary_spec::Job;

impl<'a, S: Source, O: Sink> Pipeline<'a, S, O> {
    /// A pipeline of this shape, which has read nothing and written nothing: capture c is read by parser c modulo their
    /// number. There is a source for each capture of the job, in their order. It is refused for want of memory alone,
    /// and then hands back the sources, in their order and with nothing read, and the sink. It makes all rings, tables,
    /// buffers of links and room for rows.
    pub fn open(
        alloc: Global,
        job: &'a Job,
        shape: Shape,
        sources: SourceList<S>,
        sink: &'a mut O,
    ) -> Result<Self, NotOpened<'a, S, O>>
        requires captures { length sources.items ≡ length (declared_of job.now).captures }
        requires fresh { All IsFresh (map S.seen sources.items) }
        requires shape { IsWithin shape }
        ensures new { IfOk result (λ made. IsNewOf (declared_of job.now) (counts_of shape) shape.credits (map S.seen sources.items) (O.seen sink.old) made.net) }
        ensures stands { IfOk result (λ made. NetStands made.net) }
        ensures sources { IfOk result (λ made. AreSourcesOf made.net (map S.seen sources.items)) }
        ensures no_fault { IfOk result (λ made. made.fault ≡ None) }
        ensures lent { IfOk result (λ made. made.lent ≡ sink.entry.ghost_name) }
        ensures refused { IfErr result (λ back. map S.seen back.sources.items ≡ map S.seen sources.items) }
        ensures returned { IfErr result (λ back. (back.sink.ghost_name ≡ sink.entry.ghost_name) × (O.seen back.sink.now ≡ O.seen sink.old)) }
    {
        let captures = sources.len();
        let Ok(rows) = room_for_rows(alloc, shape) else {
            return Err(NotOpened { sources, sink });
        };
        match open_nodes(alloc, job, shape, sources, sink) {
            Ok(made) => {
                let NewNodes {
                    parsers,
                    groupers,
                    processors,
                    merge,
                    room,
                } = made;
                let nodes = Nodes::new(job, shape.credits, parsers, groupers, processors, merge);
                Ok(Pipeline {
                    nodes,
                    room,
                    captures,
                    rows,
                    first: None,
                })
            }
            Err(back) => Err(back),
        }
    }
}

// No row, with room for those of all links of a shape.
fn room_for_rows(alloc: Global, shape: Shape) -> Result<LinkRows, OutOfMemory>
    requires { IsWithin shape }
    ensures none { IfOk result (λ rows. rows.items ≡ []) }
    ensures room { IfOk result (λ rows. link_count (counts_of shape) ≤ rows.spare) }
{
    let parsers = shape.parsers as u64;
    let groupers = shape.groupers as u64;
    let processors = shape.processors as u64;
    let mut rows = ItemList::new(alloc);
    rows.reserve(parsers * groupers + parsers + groupers * processors + processors)?;
    Ok(rows)
}
