//! All links of a pipeline, as its nodes take them.
ghost use Rattle.std.specs.Prelude.{◌≡◌, ◌≤◌, IfOk, length};
ghost use Rattle.link_grid.specs.Pipelines.{AreJoined, AreLinksOf};

use crate::grid::{LinkGrid, link_grid};
use credit_link::{LinkRxList, LinkTxList, RingRx, RingTx};
use ds_base::{ItemList, OutOfMemory};
use node_lists::append_lists;
use std::alloc::Global;

/// The ends of all links of a pipeline of parsers, groupers, processors and a merge: a list for each node, in
/// the order of the nodes of its kind.
#[derive(Drop)]
pub struct PipelineLinks {
    /// To the groupers, and then to the merge.
    pub parser_outs: ItemList<LinkTxList<RingTx, RingRx>>,
    /// From the parsers.
    pub grouper_ins: ItemList<LinkRxList<RingRx, RingTx>>,
    /// To the processors.
    pub grouper_outs: ItemList<LinkTxList<RingTx, RingRx>>,
    /// From the groupers.
    pub processor_ins: ItemList<LinkRxList<RingRx, RingTx>>,
    /// To the merge.
    pub processor_outs: ItemList<LinkTxList<RingTx, RingRx>>,
    /// From the parsers, and then from the processors.
    pub merge_ins: ItemList<LinkRxList<RingRx, RingTx>>,
}

/// New links of so many credits over rings between all nodes of a pipeline. It is refused for want of memory
/// alone.
pub fn pipeline_links(
    alloc: Global,
    parsers: u32,
    groupers: u32,
    processors: u32,
    credits: u32,
) -> Result<PipelineLinks, OutOfMemory>
    requires { (1 ≤ credits) × (credits ≤ 1024) }
    ensures { IfOk result (λ links. AreLinksOf credits parsers groupers processors links) }
{
    let items = link_grid(alloc, parsers, groupers, credits)?;
    let counts = link_grid(alloc, parsers, 1, credits)?;
    let groups = link_grid(alloc, groupers, processors, credits)?;
    let answers = link_grid(alloc, processors, 1, credits)?;
    join_grids(items, counts, groups, answers)
}

// The ends of four grids, node by node.
fn join_grids(
    items: LinkGrid,
    counts: LinkGrid,
    groups: LinkGrid,
    answers: LinkGrid,
) -> Result<PipelineLinks, OutOfMemory>
    requires { (length counts.txs.items ≡ length items.txs.items) × (length answers.rxs.items ≡ length counts.rxs.items) }
    ensures { IfOk result (λ links. AreJoined items counts groups answers links) }
{
    let mut parser_outs = items.txs;
    append_lists(&mut parser_outs, counts.txs)?;
    let mut merge_ins = counts.rxs;
    append_lists(&mut merge_ins, answers.rxs)?;
    Ok(PipelineLinks {
        parser_outs,
        grouper_ins: items.rxs,
        grouper_outs: groups.txs,
        processor_ins: groups.rxs,
        processor_outs: answers.txs,
        merge_ins,
    })
}
