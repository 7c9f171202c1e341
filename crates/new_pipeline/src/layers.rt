//! The groupers and the query processors, and the ends of links that the other nodes take.
ghost use Rattle.std.specs.Prelude.{IfOk};
ghost use Rattle.summary_spec.specs.Job.{declared_of};
ghost use Rattle.new_pipeline.specs.Shapes.{IsWithin};
ghost use Rattle.new_pipeline.specs.Readying.{AreReady};

use crate::Shape;
use credit_link::{LinkRxList, LinkTxList, RingRx, RingTx};
use ds_base::{ItemList, OutOfMemory};
use link_grid::{PipelineLinks, pipeline_links};
use node_layers::{GrouperList, ProcessorList, grouper_layer, processor_layer};
use node_lists::take_list;
use std::alloc::Global;
use summary_spec::Job;

/// The layers between the parsers and the merge.
#[derive(Drop)]
pub(crate) struct Layers<'a> {
    pub(crate) parser_outs: ItemList<LinkTxList<RingTx, RingRx>>,
    pub(crate) groupers: GrouperList<'a>,
    pub(crate) processors: ProcessorList<'a>,
    pub(crate) merge_ins: LinkRxList<RingRx, RingTx>,
}

/// New links between all nodes of this shape, and the groupers and processors over them. It is refused for want of memory
/// alone.
pub(crate) fn new_layers<'a>(
    alloc: Global,
    job: &'a Job,
    shape: Shape,
) -> Result<Layers<'a>, OutOfMemory>
    requires { IsWithin shape }
    ensures { IfOk result (λ made. AreReady (declared_of job.now) shape made.parser_outs.items made.groupers.items made.processors.items made.merge_ins.items) }
{
    let links = pipeline_links(
        alloc,
        shape.parsers,
        shape.groupers,
        shape.processors,
        shape.credits,
    )?;
    let PipelineLinks {
        parser_outs,
        grouper_ins,
        grouper_outs,
        processor_ins,
        processor_outs,
        mut merge_ins,
    } = links;
    let groupers = grouper_layer(alloc, job, grouper_ins, grouper_outs)?;
    let processors = processor_layer(alloc, job, processor_ins, processor_outs)?;
    let merge_ins = take_list(alloc, &mut merge_ins, 0);
    Ok(Layers {
        parser_outs,
        groupers,
        processors,
        merge_ins,
    })
}
