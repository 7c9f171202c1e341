//! The layer of processors.
ghost use Rattle.std.specs.Prelude.{◌≡◌, ◌<◌, ◌≤◌, ℕ, [], IfOk, length};
ghost use Rattle.node_lists.specs.Lists.{SetsAt, items_at};
ghost use Rattle.summary_spec.specs.Job.{declared_of};
ghost use Rattle.node_layers.specs.Layers.{AreProcessorLinks, IsLayer, IsNewProcessor};

use credit_link::{LinkRxList, LinkTxList, RingRx, RingTx};
use ds_base::{ItemList, OutOfMemory};
use node_lists::take_list;
use query_node::QueryNode;
use std::alloc::Global;
use summary_spec::Job;

/// The query processors of a pipeline over rings, in the order of their numbers.
pub type ProcessorList<'a> = ItemList<QueryNode<'a, RingTx, RingRx>>;

/// A new processor for each two lists of new links of one number. It is refused for want of memory alone.
pub fn processor_layer<'a>(
    alloc: Global,
    job: &'a Job,
    ins: ItemList<LinkRxList<RingRx, RingTx>>,
    outs: ItemList<LinkTxList<RingTx, RingRx>>,
) -> Result<ProcessorList<'a>, OutOfMemory>
    requires as_many { (length outs.items ≡ length ins.items) × (length ins.items ≤ 16) }
    requires links { (q : ℕ) → q < length ins.items → AreProcessorLinks (items_at ins.items q) (items_at outs.items q) }
    ensures { IfOk result (λ layer. IsLayer (length ins.items) (IsNewProcessor (declared_of job.now) ins.items outs.items) layer.items) }
{
    let mut ins = ins;
    let mut outs = outs;
    let mut layer = ItemList::new(alloc);
    let count = ins.len() as u32;
    for q in 0..count {
        let node = processor_at(alloc, job, q, &mut ins, &mut outs)?;
        let Ok(()) = layer.push(node) else {
            return Err(OutOfMemory);
        };
    }
    Ok(layer)
}

// One processor, which takes its lists of links out.
fn processor_at<'a>(
    alloc: Global,
    job: &'a Job,
    q: u32,
    ins: &mut ItemList<LinkRxList<RingRx, RingTx>>,
    outs: &mut ItemList<LinkTxList<RingTx, RingRx>>,
) -> Result<QueryNode<'a, RingTx, RingRx>, OutOfMemory>
    requires there { (q < length ins.old.items) × (q < length outs.old.items) }
    requires links { AreProcessorLinks (items_at ins.old.items q) (items_at outs.old.items q) }
    ensures made { IfOk result (λ node. IsNewProcessor (declared_of job.now) ins.old.items outs.old.items q node) }
    ensures ins_left { SetsAt ins.old.items ins.new.items q [] }
    ensures outs_left { SetsAt outs.old.items outs.new.items q [] }
{
    let own_ins = take_list(alloc, ins, q as u64);
    let own_outs = take_list(alloc, outs, q as u64);
    match QueryNode::new(alloc, job, own_ins, own_outs) {
        Ok(node) => Ok(node),
        Err(_) => Err(OutOfMemory),
    }
}
