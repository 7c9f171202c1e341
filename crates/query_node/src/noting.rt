//! One frame of a group: whether it may stand where it came, and what is put for it.
ghost use Rattle.std.specs.Prelude.{◌≡◌, ◌<◌, ◌∷◌, ◌++◌, ◌↔◌, [], ℕ, List, false, IsTrue, IsFalse, OnOk, OnErr, Some, length, replicate, slice_index_or, IfOk};
ghost use Rattle.node_frames.specs.declared.frame.Frame.{Frame as FrameSeen};
ghost use Rattle.ds_base.specs.declared.verdict.Answer.{Answer as AnswerSeen};
ghost use Rattle.credit_link.specs.Frames.{has_finish};
ghost use Rattle.shuffle_poll.specs.Shuffles.{ShuffleHolds};
ghost use Rattle.summary_spec.specs.Job.{declared_of};
ghost use Rattle.run_law.specs.Links.{MayFollow, GroupRule};
ghost use Rattle.run_law.specs.Shapes.{IsFront};
ghost use Rattle.node_lanes.specs.Resting.{NoneHeld};
ghost use Rattle.query_state.specs.States.{state_is, taken_on, taken_more, MayTake, answer_frames};
ghost use Rattle.query_node.specs.Works.{put_by};
ghost use Rattle.query_node.specs.Steps.{CanAnswer};

use credit_link::{NamedRx, NamedTx};
use ds_base::{Answer, OutOfMemory};
use frame_order::GroupOrder;
use node_frames::Frame;
use query_state::QueryState;
use shuffle_poll::Shuffle;
use std::alloc::Global;
use summary_spec::Job;

/// For so many links, that nothing came. It is refused for want of memory alone.
pub(crate) fn new_orders(alloc: Global, links: u32) -> Result<Vec<GroupOrder>, OutOfMemory>
    ensures { IfOk result (λ orders. orders.items ≡ replicate links []) }
{
    let Ok(mut orders) = Vec::with_capacity(alloc, links as usize) else {
        return Err(OutOfMemory);
    };
    for _ in 0..links {
        orders.push_reserved(GroupOrder::new());
    }
    Ok(orders)
}

/// Notes a frame of link `j` in if it may stand behind those before it, and answers whether it may.
pub(crate) fn admit_at(orders: &mut Vec<GroupOrder>, job: &Job, j: u32, frame: &Frame) -> bool
    requires { j < length orders.old.items }
    ensures exact { IsTrue result ↔ MayFollow (GroupRule (declared_of job.now)) (taken_on orders.old.items j) frame.now }
    ensures takes { IsTrue result → orders.new.items ≡ taken_more orders.old.items j frame.now }
    ensures refuses { IsFalse result → orders.new.items ≡ orders.old.items }
{
    orders[j as usize].admit(job, frame)
}

/// Takes a frame of link `j` in up, and puts the answer to the group that is whole with it. It is refused for want
/// of memory alone, and the state is of no use then.
pub(crate) fn answer_at<T: NamedTx, R: NamedRx>(
    state: &mut QueryState,
    outs: &mut Shuffle<T, R>,
    job: &Job,
    j: u32,
    frame: &Frame,
) -> Result<(), OutOfMemory>
    requires { CanAnswer (declared_of job.now) state.old outs.old j frame.now }
    ensures links { OnOk result (outs.new.links ≡ outs.old.links) }
    ensures queues { OnOk result ((k : ℕ) → IsFront (slice_index_or outs.old.queues k []) (slice_index_or outs.new.queues k [])) }
    ensures holds { ShuffleHolds outs.new.links outs.new.queues }
    ensures refused { OnErr result (outs.new ≡ outs.old) }
    ensures takes { OnOk result ((taken : List (List FrameSeen)) → state_is (declared_of job.now) taken (put_by outs.old) state.old → MayTake (declared_of job.now) taken j frame.now
        → state_is (declared_of job.now) (taken_more taken j frame.now) (put_by outs.new) state.new) }
{
    match state.take(job, j, frame) {
        Ok(answer) => {
            put_answer(outs, answer);
            Ok(())
        }
        Err(bad) => {
            let _ = outs.waiting();
            Err(bad)
        }
    }
}

// Puts the answer to a group, where there is one.
fn put_answer<T: NamedTx, R: NamedRx>(outs: &mut Shuffle<T, R>, answer: Option<Answer>)
    requires one { length outs.old.links ≡ 1 }
    requires none { NoneHeld outs.old }
    requires unfinished { (a : AnswerSeen) → answer ≡ Some a → has_finish (put_by outs.old) ≡ false }
    ensures links { outs.new.links ≡ outs.old.links }
    ensures put { put_by outs.new ≡ put_by outs.old ++ answer_frames answer }
    ensures queues { (k : ℕ) → IsFront (slice_index_or outs.old.queues k []) (slice_index_or outs.new.queues k []) }
    ensures holds { ShuffleHolds outs.new.links outs.new.queues }
{
    match answer {
        Some(answer) => put_frame(outs, Frame::AnswerRow(answer)),
        None => {
            let _ = outs.waiting();
        }
    }
}

/// Puts a frame on the one link out, where none waits and the end was not put.
pub(crate) fn put_frame<T: NamedTx, R: NamedRx>(outs: &mut Shuffle<T, R>, frame: Frame)
    requires one { length outs.old.links ≡ 1 }
    requires none { NoneHeld outs.old }
    requires unfinished { has_finish (put_by outs.old) ≡ false }
    ensures links { outs.new.links ≡ outs.old.links }
    ensures put { put_by outs.new ≡ put_by outs.old ++ frame ∷ [] }
    ensures queues { (k : ℕ) → IsFront (slice_index_or outs.old.queues k []) (slice_index_or outs.new.queues k []) }
    ensures holds { ShuffleHolds outs.new.links outs.new.queues }
{
    outs.put(0, frame);
}
