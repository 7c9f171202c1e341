//! Lines that are due: pushed onto a text, and written from there.
ghost use Rattle.std.specs.Prelude.{◌≡◌, ◌++◌, OnOk, MatchResult};
ghost use Rattle.ds_base.specs.Faults.{Rose};
ghost use Rattle.ds_base.specs.Outside.{SinkStays};
ghost use Rattle.summary_spec.specs.Job.{declared_of};
ghost use Rattle.merge_state.specs.Promised.{NoneIsDue, Pushes};
ghost use Rattle.merge_state.specs.States.{StandsFor};
ghost use Rattle.result_merge.specs.Steps.{TakesFront};

use ds_base::{Failed, OutOfMemory, Sink, Text};
use ghost_list::GhostList;
use merge_state::MergeState;
use summary_spec::Job;

/// Puts all lines that are due at the end of a text. It is refused for want of memory alone, and the state is of no
/// use then.
pub(crate) fn push_all(
    state: &mut MergeState,
    job: &Job,
    text: &mut Text,
) -> Result<(), OutOfMemory>
    requires { StandsFor (declared_of job.now) state.old }
    ensures pushes { OnOk result (Pushes (declared_of job.now) state.old state.new text.old.items text.new.items) }
    ensures all { OnOk result (NoneIsDue (declared_of job.now) state.new) }
{
    'lines: loop {
        match state.push_due(job, text) {
            Ok(true) => {}
            Ok(false) => return Ok(()),
            Err(bad) => return Err(bad),
        }
    }
}

/// Writes a text, and notes what of it was taken. Each write offers all that is left of it, and a failed write ends it.
pub(crate) fn write_noted<O: Sink>(
    out: &mut O,
    gained: &mut GhostList<u8>,
    text: &[u8],
) -> Result<(), Failed>
    ensures stays { SinkStays (O.seen out.old) (O.seen out.new) }
    ensures faults { MatchResult result
        (λ _. (O.seen out.new).faults ≡ (O.seen out.old).faults)
        (λ _. Rose (O.seen out.old).faults (O.seen out.new).faults) }
    ensures front { TakesFront (O.seen out.old) (O.seen out.new) gained.old.items gained.new.items text.now }
    ensures whole { OnOk result (gained.new.items ≡ gained.old.items ++ text.now) }
{
    let mut written = 0;
    'pieces: while written < text.len() {
        let count = match out.write(&text[written..]) {
            Ok(count) => count,
            Err(bad) => return Err(bad),
        };
        *gained = gained.and_all(&text[written..written + count]);
        written += count;
    }
    Ok(())
}
