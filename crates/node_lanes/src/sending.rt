//! The links out of a node.
ghost use Rattle.std.specs.Prelude.{◌≡◌, ◌<◌, ◌≤◌, ℕ, IfOk, IfErr};
ghost use Rattle.node_lanes.specs.Ends.{put_on, OutsStand, OutsAreQuiet, OutsGo};
ghost use Rattle.node_lanes.specs.Passes.{OutsPass, OutsNoLess, OutsAreCalm, OutsMeet};

use credit_link::{NamedRx, NamedTx, NodeFault};
use shuffle_poll::{Needs, Shuffle};

/// Polls the links out once: offers what is ready, pumps each link once, and offers what became ready. True
/// exactly where a byte moved. A fault names the lowest link that met one; links out are counted from `first`
/// on.
pub fn poll_outs<T: NamedTx, R: NamedRx>(
    outs: &mut Shuffle<T, R>,
    first: u32,
    cut: u32,
) -> Result<bool, NodeFault>
    requires { (first ≤ 64) × (0 < cut) }
    ensures stand { (credits : ℕ) → OutsStand credits outs.old → OutsStand credits outs.new }
    ensures goes { OutsGo outs.old outs.new }
    ensures put { (k : ℕ) → put_on outs.new k ≡ put_on outs.old k }
    ensures quiet { IfOk result (λ _. OutsAreQuiet outs.new) }
    ensures calm { IfOk result (λ _. OutsAreCalm outs.old outs.new) }
    ensures passes { IfOk result (λ moved. OutsPass moved outs.old outs.new) }
    ensures no_less { IfOk result (λ _. OutsNoLess outs.old outs.new) }
    ensures meets { OutsAreQuiet outs.old → IfErr result (λ fault. OutsMeet first outs.old outs.new fault) }
{
    let mut needs = Needs {
        credit: 0,
        room: 0,
        moved: false,
    };
    match outs.poll(cut, &mut needs) {
        Ok(_) => Ok(needs.moved),
        Err(fault) => Err(NodeFault::Link {
            link: first + fault.link,
            bad: fault.bad,
        }),
    }
}
