//! The trait of what is written to the outside.

ghost use Rattle.std.specs.Prelude.{◌≡◌, ◌<◌, ◌≤◌, ◌++◌, length, take, IsTrue, IfOk, OnErr, MatchResult};
ghost use Rattle.ds_base.specs.Faults.{Rose};
ghost use Rattle.ds_base.specs.Outside.{SinkSeen, SinkStays};

use crate::Failed;

/// Where bytes go to the outside, such as the standard output.
pub trait Sink {
    /// What a contract sees. An object that tells is held to what it tells.
    ghost seen: { Self → SinkSeen };

    /// Takes some bytes from the front of `piece`, at least one, and answers how many.
    fn write(&mut self, piece: &[u8]) -> Result<usize, Failed>
        requires { 0 < length piece.now }
        ensures stays { SinkStays (seen self.old) (seen self.new) }
        ensures faults { MatchResult result
            (λ _. (seen self.new).faults ≡ (seen self.old).faults)
            (λ _. Rose (seen self.old).faults (seen self.new).faults) }
        ensures within { IfOk result (λ n. (1 ≤ n) × (n ≤ length piece.now)) }
        ensures appended { IsTrue (seen self.old).told →
            IfOk result (λ n. (seen self.new).written ≡ (seen self.old).written ++ take n piece.now) }
        ensures failed { IsTrue (seen self.old).told → OnErr result ((seen self.new).written ≡ (seen self.old).written) };
}
