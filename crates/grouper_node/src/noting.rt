//! One frame: whether it may stand where it came, and on which links a frame that is due is put.
ghost use Rattle.std.specs.Prelude.{◌≡◌, ◌<◌, ◌≤◌, ◌∷◌, ◌++◌, ◌↔◌, [], ℕ, IsTrue, IsFalse, IfOk, Some, length, replicate};
ghost use Rattle.summary_spec.specs.Job.{declared_of};
ghost use Rattle.run_law.specs.Links.{MayFollow, ItemRule};
ghost use Rattle.run_law.specs.Shapes.{Shape};
ghost use Rattle.frame_order.specs.Items.{IsOf};
ghost use Rattle.node_lanes.specs.Resting.{NoneHeld};
ghost use Rattle.grouper_state.specs.States.{state_is, taken_on, taken_more, with_due};
ghost use Rattle.grouper_node.specs.Works.{shape_with, puts_of};
ghost use Rattle.grouper_node.specs.Steps.{ShuffleGoes, IsOpenFor};

use credit_link::{NamedRx, NamedTx};
use ds_base::OutOfMemory;
use frame_order::{ItemLink, ItemOrder};
use grouper_state::{Due, GrouperState};
use node_frames::Frame;
use shuffle_poll::Shuffle;
use std::alloc::Global;
use summary_spec::Job;

/// For so many links, that nothing came. It is refused for want of memory alone.
pub(crate) fn new_orders(alloc: Global, links: u32) -> Result<Vec<ItemOrder>, OutOfMemory>
    ensures { IfOk result (λ orders. orders.items ≡ replicate links []) }
{
    let Ok(mut orders) = Vec::with_capacity(alloc, links as usize) else {
        return Err(OutOfMemory);
    };
    for _ in 0..links {
        orders.push_reserved(ItemOrder::new());
    }
    Ok(orders)
}

// How many captures the job has.
fn capture_count(job: &Job) -> u32
    ensures count { result ≡ length (declared_of job.now).captures }
    ensures few { result ≤ 64 }
{
    job.offsets.len() as u32
}

/// The state of the grouper of this number, where nothing was taken and nothing put.
pub(crate) fn new_state(alloc: Global, job: &Job, me: u32, processors: u32) -> GrouperState
    requires { 0 < processors }
    ensures { (parsers groupers : ℕ) → 0 < parsers → state_is (declared_of job.now) (shape_with parsers groupers processors) me (replicate parsers []) (replicate processors []) result }
{
    let captures = capture_count(job);
    GrouperState::new(alloc, captures, job.window, me, processors)
}

/// Notes a frame of a link in if it may stand behind those before it, and answers whether it may.
pub(crate) fn admit_at(
    orders: &mut Vec<ItemOrder>,
    job: &Job,
    link: ItemLink,
    frame: &Frame,
) -> bool
    requires there { link.parser < length orders.old.items }
    requires some { (0 < link.parsers) × (0 < link.groupers) }
    ensures exact { (shape : Shape) → IsOf shape link → IsTrue result ↔ MayFollow (ItemRule (declared_of job.now) shape link.parser link.grouper) (taken_on orders.old.items link.parser) frame.now }
    ensures takes { IsTrue result → orders.new.items ≡ taken_more orders.old.items link.parser frame.now }
    ensures refuses { IsFalse result → orders.new.items ≡ orders.old.items }
{
    orders[link.parser as usize].admit(job, link, frame)
}

/// Puts a frame that is due on its links of so many, on none of which a frame waits or the end was put.
pub(crate) fn put_frame<T: NamedTx, R: NamedRx>(outs: &mut Shuffle<T, R>, processors: u32, due: Due)
    requires many { processors ≡ length outs.old.links }
    requires none { NoneHeld outs.old }
    requires unfinished { IsOpenFor (puts_of outs.old) due }
    ensures goes { ShuffleGoes outs.old outs.new }
    ensures put { puts_of outs.new ≡ with_due (puts_of outs.old) (Some due) }
{
    match due {
        Due::To(link, frame) => outs.put(link, frame),
        Due::All(frame) => outs.put_all(processors, frame),
    }
}
