//! Nodes of any kind but the merge, and turns of them.
ghost use Rattle.std.specs.Prelude.{◌≡◌, ◌<◌, length};
ghost use Rattle.node_bundles.specs.Going.{Each, Went};
ghost use Rattle.node_bundles.specs.Bundles.{AnyWent};

use crate::turning::TakesTurn;
use credit_link::{NodeFault, RingRx, RingTx, Turn};
use ds_base::{ItemList, Source};
use grouper_node::GrouperNode;
use parser_node::ParserNode;
use query_node::QueryNode;

/// The cut of each turn of a bundle, in bytes.
pub const PHASE_CUT: u32 = 4096;

/// A node that is no merge.
pub enum AnyNode<'a, S: Source> {
    Parser(ParserNode<'a, S, RingTx, RingRx>),
    Grouper(GrouperNode<'a, RingTx, RingRx>),
    Processor(QueryNode<'a, RingTx, RingRx>),
}

/// Nodes that are no merge, in the order of their numbers.
pub type AnyList<'a, S> = ItemList<AnyNode<'a, S>>;

/// A turn of each node, in their order, up to the first fault. It says whether one moved.
pub(crate) fn turn_each<S: Source>(nodes: &mut AnyList<'_, S>) -> Result<bool, NodeFault>
    ensures { Each (AnyWent S) nodes.old.items nodes.new.items }
{
    let mut moved = false;
    'nodes: for i in 0..nodes.len() {
        let turn = turn_at(nodes, i)?;
        moved = moved_with(turn, moved);
    }
    Ok(moved)
}

// A turn of one of them.
fn turn_at<S: Source>(nodes: &mut AnyList<'_, S>, i: u64) -> Result<Turn, NodeFault>
    requires { i < length nodes.old.items }
    ensures { Each (AnyWent S) nodes.old.items nodes.new.items }
{
    turn_any(nodes.get_mut(i))
}

// A turn of a node by its kind.
fn turn_any<S: Source>(node: &mut AnyNode<'_, S>) -> Result<Turn, NodeFault>
    ensures { AnyWent S node.old node.new }
{
    match node {
        AnyNode::Parser(parser) => turn_of(parser),
        AnyNode::Grouper(grouper) => turn_of(grouper),
        AnyNode::Processor(processor) => turn_of(processor),
    }
}

/// A turn of one node.
pub(crate) fn turn_of<N: TakesTurn>(node: &mut N) -> Result<Turn, NodeFault>
    ensures { Went N N.Stands N.Goes N.Meets N.fault N.Tells N.shown node.old node.new }
{
    node.turn(PHASE_CUT)
}

// Whether a node has moved, after one turn more.
pub(crate) fn moved_with(turn: Turn, moved: bool) -> bool {
    match turn {
        Turn::Moved => true,
        Turn::Idle | Turn::Done => moved,
    }
}
