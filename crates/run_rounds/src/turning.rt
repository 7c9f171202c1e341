//! Nodes that take turns, as one round after another sees them.
ghost use Rattle.std.specs.Prelude.{◌≡◌, ◌<◌, ◌↔◌, ℕ, true, IsNone, IfSome, IfOk, IfErr, Some};
ghost use Rattle.credit_link.specs.declared.turn.NodeFault.{NodeFault};
ghost use Rattle.round_law.specs.Turns.{IsTurn};
ghost use Rattle.net_law.specs.Nets.{Net, NetStands, EachPair};
ghost use Rattle.net_law.specs.Steps.{AreLooked};
ghost use Rattle.net_law.specs.Turned.{IsAlike};
ghost use Rattle.net_law.specs.Rounds.{view, NoneHasFault, RowOf};
ghost use Rattle.run_rounds.specs.Faults.{node_count, fault_at};
ghost use Rattle.run_rounds.specs.Looked.{NodesLooked};
ghost use Rattle.run_rounds.specs.Runs.{AllAreDone};

use crate::node_at::NodeAt;
use credit_link::{NodeFault, Turn};

/// The nodes of a pipeline over rings, each of which can take a turn, and all links of which can be looked at.
pub trait TakesTurns {
    /// The nodes, as plain values.
    ghost net: { Self → Net };

    /// What any turns and looks keep.
    ghost Goes: { Self → Self → Type 0 };

    /// Why a turn of the node of a number gave a fault, where no node had one.
    ghost Meets: { Self → Self → ℕ → NodeFault → Type 0 };

    /// How many nodes there are.
    fn node_count(&self) -> u32
        ensures stands { NetStands (net self.now) }
        ensures count { result ≡ node_count (net self.now) };

    /// The first fault that a turn gave, or None where no node has one.
    fn fault(&self) -> Option<NodeAt>
        ensures none { IsNone result ↔ NoneHasFault (net self.now) }
        ensures some { IfSome result (λ at. fault_at (net self.now) at.node ≡ Some at.fault) };

    /// Whether all nodes are done, and none has met a fault.
    fn done(&self) -> bool
        ensures stands { NetStands (net self.now) }
        ensures done { result ≡ true → AllAreDone (net self.now) }
        ensures not_done { AllAreDone (net self.now) → result ≡ true };

    /// Shows both ends of each link every byte and every free place of its rings. It moves nothing.
    fn look(&mut self)
        ensures stands { NetStands (net self.new) }
        ensures goes { Goes self.old self.new }
        ensures looks { NodesLooked (net self.old) (net self.new) }
        ensures looked { EachPair (AreLooked (net self.new).credits) (net self.new) };

    /// A turn of one node, which moves at most `cut` bytes at a time on each pipe, and then a look at its links in.
    fn turn(&mut self, node: u32, cut: u32) -> Result<Turn, NodeFault>
        requires cut { 0 < cut }
        requires there { node < node_count (net self.old) }
        ensures stands { NetStands (net self.new) }
        ensures goes { Goes self.old self.new }
        ensures alike { IsAlike (net self.old) (net self.new) }
        ensures turns { IfOk result (λ turn. NoneHasFault (net self.old) → NoneHasFault (net self.new) × IsTurn (RowOf (net self.old).credits turn) node (view (net self.old)) (view (net self.new))) }
        ensures fault { IfErr result (λ bad. fault_at (net self.new) node ≡ Some bad) }
        ensures meets { NoneHasFault (net self.old) → IfErr result (Meets self.old self.new node) };

    /// No turn and no look changes nothing.
    ghost stays: { (a : Self) → Goes a a };

    /// What is kept by some turns and by those after them is kept by all.
    ghost goes_on: { (a b c : Self) → Goes a b → Goes b c → Goes a c };
}
