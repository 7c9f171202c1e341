//! Writes a whole text to a sink that takes it in pieces. However that ends, what the sink got is a
//! front of the text; where no write failed it is all of it. Every command and node that writes stands
//! on this.
#![tactic(auto)]

ghost use Rattle.std.specs.Prelude.{◌≡◌, ◌++◌, IsTrue, OnOk, MatchResult};
ghost use Rattle.ds_base.specs.Faults.{Rose};
ghost use Rattle.ds_base.specs.Gain.{GainsPrefix};
ghost use Rattle.ds_base.specs.Outside.{SinkStays};

use ds_base::{Failed, Sink};

/// Writes a text. Each write offers all that is left of it, and a failed write ends it.
pub fn write_all<O: Sink>(out: &mut O, text: &[u8]) -> Result<(), Failed>
    ensures stays { SinkStays (O.seen out.old) (O.seen out.new) }
    ensures faults { MatchResult result
        (λ _. (O.seen out.new).faults ≡ (O.seen out.old).faults)
        (λ _. Rose (O.seen out.old).faults (O.seen out.new).faults) }
    ensures prefix { IsTrue (O.seen out.old).told → GainsPrefix (O.seen out.old).written (O.seen out.new).written text.now }
    ensures whole { IsTrue (O.seen out.old).told → OnOk result ((O.seen out.new).written ≡ (O.seen out.old).written ++ text.now) }
{
    let mut written = 0;
    'pieces: while written < text.len() {
        written += out.write(&text[written..])?;
    }
    Ok(())
}
