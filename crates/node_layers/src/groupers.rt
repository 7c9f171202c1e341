//! The layer of groupers.
ghost use Rattle.std.specs.Prelude.{◌≡◌, ◌<◌, ◌≤◌, ℕ, [], IfOk, length};
ghost use Rattle.node_lists.specs.Lists.{SetsAt, items_at};
ghost use Rattle.summary_spec.specs.Job.{declared_of};
ghost use Rattle.node_layers.specs.Layers.{AreGrouperLinks, IsLayer, IsNewGrouper};

use credit_link::{LinkRxList, LinkTxList, RingRx, RingTx};
use ds_base::{ItemList, OutOfMemory};
use grouper_node::GrouperNode;
use node_lists::take_list;
use std::alloc::Global;
use summary_spec::Job;

/// The groupers of a pipeline over rings, in the order of their numbers.
pub type GrouperList<'a> = ItemList<GrouperNode<'a, RingTx, RingRx>>;

/// A new grouper for each two lists of new links of one number. It is refused for want of memory alone.
pub fn grouper_layer<'a>(
    alloc: Global,
    job: &'a Job,
    ins: ItemList<LinkRxList<RingRx, RingTx>>,
    outs: ItemList<LinkTxList<RingTx, RingRx>>,
) -> Result<GrouperList<'a>, OutOfMemory>
    requires as_many { (length outs.items ≡ length ins.items) × (length ins.items ≤ 16) }
    requires links { (g : ℕ) → g < length ins.items → AreGrouperLinks (items_at ins.items g) (items_at outs.items g) }
    ensures { IfOk result (λ layer. IsLayer (length ins.items) (IsNewGrouper (declared_of job.now) (length ins.items) ins.items outs.items) layer.items) }
{
    let mut ins = ins;
    let mut outs = outs;
    let mut layer = ItemList::new(alloc);
    let count = ins.len() as u32;
    for g in 0..count {
        let node = grouper_at(alloc, job, g, count, &mut ins, &mut outs)?;
        let Ok(()) = layer.push(node) else {
            return Err(OutOfMemory);
        };
    }
    Ok(layer)
}

// One grouper, which takes its lists of links out.
fn grouper_at<'a>(
    alloc: Global,
    job: &'a Job,
    g: u32,
    groupers: u32,
    ins: &mut ItemList<LinkRxList<RingRx, RingTx>>,
    outs: &mut ItemList<LinkTxList<RingTx, RingRx>>,
) -> Result<GrouperNode<'a, RingTx, RingRx>, OutOfMemory>
    requires place { (g < groupers) × (groupers ≤ 16) }
    requires there { (g < length ins.old.items) × (g < length outs.old.items) }
    requires links { AreGrouperLinks (items_at ins.old.items g) (items_at outs.old.items g) }
    ensures made { IfOk result (λ node. IsNewGrouper (declared_of job.now) groupers ins.old.items outs.old.items g node) }
    ensures ins_left { SetsAt ins.old.items ins.new.items g [] }
    ensures outs_left { SetsAt outs.old.items outs.new.items g [] }
{
    let own_ins = take_list(alloc, ins, g as u64);
    let own_outs = take_list(alloc, outs, g as u64);
    match GrouperNode::new(alloc, job, g, groupers, own_ins, own_outs) {
        Ok(node) => Ok(node),
        Err(_) => Err(OutOfMemory),
    }
}
