//! One frame of a link in: whether it may stand where it came.
ghost use Rattle.std.specs.Prelude.{◌≡◌, ◌<◌, ◌↔◌, [], IsTrue, IsFalse, IfOk, length, replicate};
ghost use Rattle.summary_spec.specs.Job.{declared_of};
ghost use Rattle.run_law.specs.Links.{MayFollow, CountsRule, AnswerRule};
ghost use Rattle.run_law.specs.Shapes.{Shape};
ghost use Rattle.result_merge.specs.Works.{taken_on, taken_more};

use answer_order::AnswerOrder;
use ds_base::OutOfMemory;
use frame_order::CountsOrder;
use node_frames::Frame;
use std::alloc::Global;
use summary_spec::Job;

/// For so many parsers, that nothing came. It is refused for want of memory alone.
pub(crate) fn new_counts(alloc: Global, parsers: u32) -> Result<Vec<CountsOrder>, OutOfMemory>
    ensures { IfOk result (λ orders. orders.items ≡ replicate parsers []) }
{
    let Ok(mut orders) = Vec::with_capacity(alloc, parsers as usize) else {
        return Err(OutOfMemory);
    };
    for _ in 0..parsers {
        orders.push_reserved(CountsOrder::new());
    }
    Ok(orders)
}

/// For so many processors, that nothing came. It is refused for want of memory alone.
pub(crate) fn new_answers(alloc: Global, processors: u32) -> Result<Vec<AnswerOrder>, OutOfMemory>
    ensures { IfOk result (λ orders. orders.items ≡ replicate processors []) }
{
    let Ok(mut orders) = Vec::with_capacity(alloc, processors as usize) else {
        return Err(OutOfMemory);
    };
    for _ in 0..processors {
        orders.push_reserved(AnswerOrder::new());
    }
    Ok(orders)
}

/// Notes a frame of this parser among so many if it may stand behind those before it, and answers whether it may.
pub(crate) fn admit_counts(
    orders: &mut Vec<CountsOrder>,
    job: &Job,
    parsers: u32,
    parser: u32,
    frame: &Frame,
) -> bool
    requires { (parser < length orders.old.items) × (0 < parsers) }
    ensures exact { (shape : Shape) → shape.parsers ≡ parsers → IsTrue result ↔ MayFollow (CountsRule (declared_of job.now) shape parser) (taken_on orders.old.items parser) frame.now }
    ensures takes { IsTrue result → orders.new.items ≡ taken_more orders.old.items parser frame.now }
    ensures refuses { IsFalse result → orders.new.items ≡ orders.old.items }
{
    orders[parser as usize].admit(job, parsers, parser, frame)
}

/// Notes a frame of this processor if it may stand behind those before it, and answers whether it may.
pub(crate) fn admit_answers(
    orders: &mut Vec<AnswerOrder>,
    job: &Job,
    processor: u32,
    frame: &Frame,
) -> bool
    requires { processor < length orders.old.items }
    ensures exact { IsTrue result ↔ MayFollow (AnswerRule (declared_of job.now)) (taken_on orders.old.items processor) frame.now }
    ensures takes { IsTrue result → orders.new.items ≡ taken_more orders.old.items processor frame.now }
    ensures refuses { IsFalse result → orders.new.items ≡ orders.old.items }
{
    orders[processor as usize].admit(job, frame)
}
