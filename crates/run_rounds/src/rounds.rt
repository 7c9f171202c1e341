//! One turn, and a round of them.
ghost use Rattle.std.specs.Prelude.{◌≡◌, ◌<◌, ◌||◌, true, false, Some, IfOk, IfErr};
ghost use Rattle.round_law.specs.Turns.{IsTurn};
ghost use Rattle.net_law.specs.Nets.{EachPair, Net, NetStands};
ghost use Rattle.net_law.specs.Steps.{AreLooked};
ghost use Rattle.net_law.specs.Turned.{IsAlike};
ghost use Rattle.net_law.specs.Rounds.{view, NoneHasFault, RowOf};
ghost use Rattle.run_rounds.specs.Faults.{node_count, fault_at};
ghost use Rattle.run_rounds.specs.Looked.{NodesLooked};
ghost use Rattle.run_rounds.specs.Rounds.{HadTurns, has_moved};
ghost use Rattle.run_rounds.specs.Runs.{AllAreDone, MeetsFirst, ahead_of};

use crate::node_at::NodeAt;
use crate::turning::TakesTurns;
use credit_link::Turn;

/// The cut of each turn of a round, in bytes.
pub const ROUND_CUT: u32 = 4096;

/// One round: a look at all links, and then a turn of each node in the order of numbers. It says whether a node moved, and
/// ends with the first fault of a turn.
pub fn round<N: TakesTurns>(nodes: &mut N) -> Result<bool, NodeAt>
    requires quiet { NoneHasFault (N.net nodes.old) }
    ensures stands { NetStands (N.net nodes.new) }
    ensures goes { N.Goes nodes.old nodes.new }
    ensures alike { IsAlike (N.net nodes.old) (N.net nodes.new) }
    ensures quiet { IfOk result (λ _. NoneHasFault (N.net nodes.new)) }
    ensures each { IfOk result (λ _. (start : Net) × NodesLooked (N.net nodes.old) start × HadTurns (node_count start) start (N.net nodes.new)) }
    ensures lowers { IfOk result (λ moved. moved ≡ true → ahead_of (N.net nodes.new) < ahead_of (N.net nodes.old)) }
    ensures done { IfOk result (λ moved. moved ≡ false → AllAreDone (N.net nodes.new)) }
    ensures meets { IfErr result (MeetsFirst N N.net N.Goes N.Meets nodes.old nodes.new) }
    ensures fault { IfErr result (λ at. fault_at (N.net nodes.new) at.node ≡ Some at.fault) }
{
    let count = begin_round(nodes);
    let mut moved = false;
    'nodes: for node in 0..count {
        let turn = turn_at(nodes, node, ROUND_CUT)?;
        moved = moved_with(turn, moved);
    }
    Ok(moved)
}

// A look at all links, with which a round begins; and how many turns it has.
fn begin_round<N: TakesTurns>(nodes: &mut N) -> u32
    ensures stands { NetStands (N.net nodes.new) }
    ensures goes { N.Goes nodes.old nodes.new }
    ensures looks { NodesLooked (N.net nodes.old) (N.net nodes.new) }
    ensures looked { EachPair (AreLooked (N.net nodes.new).credits) (N.net nodes.new) }
    ensures count { result ≡ node_count (N.net nodes.new) }
{
    nodes.look();
    nodes.node_count()
}

// A turn of one node, whose fault comes with the node's number.
pub(crate) fn turn_at<N: TakesTurns>(nodes: &mut N, node: u32, cut: u32) -> Result<Turn, NodeAt>
    requires cut { 0 < cut }
    requires there { node < node_count (N.net nodes.old) }
    requires quiet { NoneHasFault (N.net nodes.old) }
    ensures stands { NetStands (N.net nodes.new) }
    ensures goes { N.Goes nodes.old nodes.new }
    ensures alike { IsAlike (N.net nodes.old) (N.net nodes.new) }
    ensures quiet { IfOk result (λ _. NoneHasFault (N.net nodes.new)) }
    ensures turns { IfOk result (λ turn. IsTurn (RowOf (N.net nodes.old).credits turn) node (view (N.net nodes.old)) (view (N.net nodes.new))) }
    ensures named { IfErr result (λ at. at.node ≡ node) }
    ensures meets { IfErr result (λ at. N.Meets nodes.old nodes.new at.node at.fault) }
    ensures fault { IfErr result (λ at. fault_at (N.net nodes.new) at.node ≡ Some at.fault) }
{
    match nodes.turn(node, cut) {
        Ok(turn) => Ok(turn),
        Err(fault) => Err(NodeAt { node, fault }),
    }
}

// Whether a node has moved, after one turn more.
fn moved_with(turn: Turn, moved: bool) -> bool
    ensures { result ≡ (has_moved turn || moved) }
{
    match turn {
        Turn::Moved => true,
        Turn::Idle | Turn::Done => moved,
    }
}
