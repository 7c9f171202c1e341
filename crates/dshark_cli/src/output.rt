//! The text of a command, written as its last step.

ghost use Rattle.std.specs.Prelude.{◌≡◌, ◌++◌, IsTrue, OnOk, MatchResult};
ghost use Rattle.ds_base.specs.Faults.{Rose};
ghost use Rattle.ds_base.specs.Outside.{SinkStays};
ghost use Rattle.ds_base.specs.Gain.{GainsPrefix};

use ds_base::Sink;
use output_text::write_all;
use run_faults::RunFault;

/// Writes a text, as the last step of a command.
pub fn write_text<O: Sink>(out: &mut O, text: &str) -> Result<(), RunFault>
    ensures stays { SinkStays (O.seen out.old) (O.seen out.new) }
    ensures faults { MatchResult result
        (λ _. (O.seen out.new).faults ≡ (O.seen out.old).faults)
        (λ fault. (fault ≡ RunFault.WriteFault) × Rose (O.seen out.old).faults (O.seen out.new).faults) }
    ensures prefix { IsTrue (O.seen out.old).told → GainsPrefix (O.seen out.old).written (O.seen out.new).written text.now }
    ensures whole { IsTrue (O.seen out.old).told → OnOk result ((O.seen out.new).written ≡ (O.seen out.old).written ++ text.now) }
{
    match write_all(out, text.as_bytes()) {
        Ok(()) => Ok(()),
        Err(_) => Err(RunFault::WriteFault),
    }
}
