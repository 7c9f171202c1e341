//! A run in the thread of its caller.
ghost use Rattle.std.specs.Prelude.{◌≡◌, ◌++◌, ℕ, List, Some, IfOk, IfErr};
ghost use Rattle.run_law.specs.Laws.{HasEndedWhole, HasWrittenFront};
ghost use Rattle.net_law.specs.Nets.{NetStands, lists_of};
ghost use Rattle.run_rounds.specs.Faults.{fault_at};
ghost use Rattle.run_rounds.specs.Runs.{AllAreDone};
ghost use Rattle.pipeline_law.specs.Laws.{TellsFiles};
ghost use Rattle.pipeline_core.specs.Pipelines.{PipelineGoes};
ghost use Rattle.pipeline_run.specs.Runs.{MetBy};

use ds_base::{Chooser, Sink, Source};
use pipeline_core::Pipeline;
use run_rounds::{NodeAt, run_over};

/// Runs a pipeline to its end. It takes the turns that the chooser asks for, and after each 1,024 of them a round of all
/// nodes; once the chooser has answered None it is not asked again, and only rounds are taken. It is Ok exactly where all
/// nodes are done, and then the report was written and each frame that was put on a link was taken; else it answers the
/// first fault of a turn, be it one from before. However it ends, what was written is a front of the report. It always
/// ends, whatever the chooser asks for.
pub fn run_here<S: Source, O: Sink, C: Chooser>(
    pipeline: &mut Pipeline<'_, S, O>,
    chooser: &mut C,
) -> Result<(), NodeAt>
    ensures goes { PipelineGoes pipeline.old pipeline.new }
    ensures done { IfOk result (λ _. AllAreDone pipeline.new.net) }
    ensures whole { IfOk result (λ _. (files : List (List ℕ)) (start : List ℕ) → TellsFiles pipeline.old.net files → HasEndedWhole pipeline.new.net.job files pipeline.new.net.shape start (lists_of pipeline.new.net start)) }
    ensures written { (files : List (List ℕ)) (start : List ℕ) → TellsFiles pipeline.old.net files → HasWrittenFront pipeline.new.net.job files start (start ++ pipeline.new.net.merge.gained) }
    ensures fault { IfErr result (λ at. fault_at pipeline.new.net at.node ≡ Some at.fault) }
    ensures causes { IfErr result (MetBy pipeline.old pipeline.new) }
{
    stands(pipeline);
    let ended = run_over(pipeline, chooser);
    stands(pipeline);
    ended
}

// A pipeline stands between turns.
fn stands<S: Source, O: Sink>(pipeline: &Pipeline<'_, S, O>)
    ensures { NetStands pipeline.now.net }
{
    let _ = pipeline.node_count();
}
