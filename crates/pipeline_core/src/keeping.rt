//! The first fault that a turn of a node gave.
ghost use Rattle.std.specs.Prelude.{◌≡◌, ◌<◌, None, Some, Err, IfSome, IfOk, IfErr};
ghost use Rattle.credit_link.specs.declared.turn.NodeFault.{NodeFault as FaultSeen};
ghost use Rattle.round_law.specs.Turns.{IsTurn};
ghost use Rattle.net_law.specs.Rounds.{view, NoneHasFault, RowOf};
ghost use Rattle.net_law.specs.Steps.{NetGoes};
ghost use Rattle.net_law.specs.Turned.{IsAlike};
ghost use Rattle.run_rounds.specs.Faults.{node_count, fault_at};
ghost use Rattle.run_rounds.specs.Looked.{NodesLooked};
ghost use Rattle.pipeline_nodes.specs.Nodes.{IsNoLink, NodesStand};
ghost use Rattle.pipeline_nodes.specs.Turns.{HasMet};
ghost use Rattle.pipeline_core.specs.Pipelines.{FirstTells};

use credit_link::{NodeFault, Turn};
use ds_base::{Sink, Source};
use pipeline_nodes::Nodes;
use run_rounds::NodeAt;

/// A turn of one node, whose fault is kept where none was met before.
pub(crate) fn turn_and_keep<'a, S: Source, O: Sink>(
    nodes: &mut Nodes<'a, S, O>,
    first: &mut Option<NodeAt>,
    node: u32,
    cut: u32,
) -> Result<Turn, NodeFault>
    requires cut { 0 < cut }
    requires there { node < node_count nodes.old.net }
    requires stands { NodesStand nodes.old.net }
    ensures stands { NodesStand nodes.new.net }
    ensures lent { nodes.new.lent ≡ nodes.old.lent }
    ensures alike { IsAlike nodes.old.net nodes.new.net }
    ensures goes { NetGoes nodes.old.net nodes.new.net }
    ensures turns { IfOk result (λ turn. NoneHasFault nodes.old.net → NoneHasFault nodes.new.net × IsTurn (RowOf nodes.old.net.credits turn) node (view nodes.old.net) (view nodes.new.net)) }
    ensures fine { IfOk result (λ _. fault_at nodes.new.net node ≡ None) }
    ensures fault { IfErr result (λ bad. fault_at nodes.new.net node ≡ Some bad) }
    ensures no_link { IfErr result (λ bad. IsNoLink bad) }
    ensures again { (bad : FaultSeen) → fault_at nodes.old.net node ≡ Some bad → (result ≡ Err bad) × NodesLooked nodes.old.net nodes.new.net }
    ensures causes { fault_at nodes.old.net node ≡ None → IfErr result (λ bad. HasMet node nodes.old.net nodes.new.net bad) }
    ensures tells { FirstTells nodes.old.net first.old → FirstTells nodes.new.net first.new }
{
    match nodes.turn(node, cut) {
        Ok(turn) => Ok(turn),
        Err(bad) => {
            *first = first_of(*first, NodeAt { node, fault: bad });
            Err(bad)
        }
    }
}

// The first fault, where this one is the last.
fn first_of(first: Option<NodeAt>, last: NodeAt) -> Option<NodeAt>
    ensures kept { IfSome first (λ at. result ≡ Some at) }
    ensures set { first ≡ None → result ≡ Some last }
{
    match first {
        Some(at) => Some(at),
        None => Some(last),
    }
}
