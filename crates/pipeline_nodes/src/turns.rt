//! A turn of any node.
ghost use Rattle.std.specs.Prelude.{◌≡◌, ◌≢◌, ◌<◌, ℕ, true, false, None, Some, Err, IfOk, IfErr};
ghost use Rattle.credit_link.specs.declared.turn.NodeFault.{NodeFault as FaultSeen};
ghost use Rattle.round_law.specs.Turns.{IsTurn};
ghost use Rattle.net_law.specs.Nets.{NetStands};
ghost use Rattle.net_law.specs.Steps.{NetGoes};
ghost use Rattle.net_law.specs.Turned.{IsAlike};
ghost use Rattle.net_law.specs.Rounds.{view, NoneHasFault, RowOf};
ghost use Rattle.run_rounds.specs.Faults.{node_count, fault_at};
ghost use Rattle.pipeline_nodes.specs.Nodes.{IsNoLink, NodesStand};
ghost use Rattle.run_rounds.specs.Looked.{NodesLooked};
ghost use Rattle.pipeline_nodes.specs.Turns.{HasMet, HasTurned};

use crate::Nodes;
use crate::place::NodePlace;
use credit_link::{NodeFault, Turn};
use ds_base::{Sink, Source};

impl<'a, S: Source, O: Sink> Nodes<'a, S, O> {
    /// A turn of the node of this number, which moves at most `cut` bytes at a time over each pipe, and then a look at its
    /// links in. A fault is kept, and every later turn of the node answers it again and moves nothing. It is never
    /// one of a link.
    pub fn turn(&mut self, node: u32, cut: u32) -> Result<Turn, NodeFault>
        requires cut { 0 < cut }
        requires there { node < node_count self.old.net }
        requires stands { NodesStand self.old.net }
        ensures stands { NodesStand self.new.net }
        ensures lent { self.new.lent ≡ self.old.lent }
        ensures alike { IsAlike self.old.net self.new.net }
        ensures goes { NetGoes self.old.net self.new.net }
        ensures turns { IfOk result (λ turn. NoneHasFault self.old.net → NoneHasFault self.new.net × IsTurn (RowOf self.old.net.credits turn) node (view self.old.net) (view self.new.net)) }
        ensures fine { IfOk result (λ _. fault_at self.new.net node ≡ None) }
        ensures fault { IfErr result (λ bad. fault_at self.new.net node ≡ Some bad) }
        ensures others { (n : ℕ) → n ≢ node → fault_at self.new.net n ≡ fault_at self.old.net n }
        ensures no_link { IfErr result (λ bad. IsNoLink bad) }
        ensures again { (bad : FaultSeen) → fault_at self.old.net node ≡ Some bad → (result ≡ Err bad) × NodesLooked self.old.net self.new.net }
        ensures causes { fault_at self.old.net node ≡ None → IfErr result (λ bad. HasMet node self.old.net self.new.net bad) }
    {
        match self.turn_node(node, cut) {
            Ok(turn) => Ok(turn),
            Err(bad) => {
                if is_of_link(bad) {
                    self.look_at_all();
                    unreachable!();
                }
                Err(bad)
            }
        }
    }

    // The same, with a fault that may be one of a link for all that is known here.
    fn turn_node(&mut self, node: u32, cut: u32) -> Result<Turn, NodeFault>
        requires cut { 0 < cut }
        requires there { node < node_count self.old.net }
        requires stands { NetStands self.old.net }
        ensures turned { HasTurned node self.old.net self.new.net result }
        ensures lent { self.new.lent ≡ self.old.lent }
    {
        match self.place(node) {
            NodePlace::Parser(p) => self.turn_parser(p, cut),
            NodePlace::Grouper(g) => self.turn_grouper(g, cut),
            NodePlace::Processor(q) => self.turn_processor(q, cut),
            NodePlace::Merge => self.turn_merge(cut),
        }
    }
}

// Whether a fault is one of a link.
fn is_of_link(bad: NodeFault) -> bool
    ensures of_link { result ≡ true → ¬ IsNoLink bad }
    ensures no_link { result ≡ false → IsNoLink bad }
{
    match bad {
        NodeFault::Link { .. } => true,
        NodeFault::Malformed { .. } | NodeFault::Read { .. } => false,
        NodeFault::Write | NodeFault::OutOfMemory => false,
    }
}
