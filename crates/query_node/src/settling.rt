//! Whether a query processor has nothing left to do.
ghost use Rattle.std.specs.Prelude.{◌≡◌, true, false};
ghost use Rattle.round_law.specs.Waits.{IsDone};
ghost use Rattle.query_node.specs.Works.{IsSound};
ghost use Rattle.query_node.specs.Steps.{work_view};

use crate::work::Work;
use credit_link::{NamedRx, NamedTx};
use node_lanes::taken_all;

impl<'a, T: NamedTx, R: NamedRx> Work<'a, T, R> {
    /// Whether all that comes was taken and granted, and all that is due was put and sent.
    pub(crate) fn done(&self) -> bool
        requires { IsSound self.now }
        ensures done { result ≡ true → IsDone (work_view self.now) }
        ensures not { result ≡ false → ¬ IsDone (work_view self.now) }
    {
        if !self.state.ended() {
            return false;
        }
        if !taken_all(&self.ins) {
            return false;
        }
        self.outs.settled()
    }
}
