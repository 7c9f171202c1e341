//! Nodes that take turns on their own.
ghost use Rattle.std.specs.Prelude.{◌≡◌, ◌≤◌, ◌<◌, ℕ, Option, Some, None, MatchResult};
ghost use Rattle.credit_link.specs.declared.turn.NodeFault.{NodeFault as FaultSeen};
ghost use Rattle.round_law.specs.Waits.{Node};
ghost use Rattle.node_bundles.specs.Going.{Went};
ghost use Rattle.node_bundles.specs.Kinds.{MergeOn, no_fault, no_view, nothing, nothing_goes, nothing_meets, merge_on_stays, merge_on_then, parser_tells_on, grouper_tells_on, processor_tells_on, merge_tells_on};
ghost use Rattle.net_law.specs.Parsers.{ParserStands, ParserGoes, ParserMeets, parser_tells, parser_view};
ghost use Rattle.net_law.specs.Groupers.{GrouperStands, GrouperGoes, GrouperMeets, grouper_tells, grouper_view};
ghost use Rattle.net_law.specs.Processors.{ProcessorStands, ProcessorGoes, ProcessorMeets, processor_tells, processor_view};
ghost use Rattle.net_law.specs.Merges.{MergeStands, MergeMeets, merge_tells, merge_view};
ghost use Rattle.net_law.proofs.Going.{parser_stays, parser_then, grouper_stays, grouper_then, processor_stays, processor_then};

use credit_link::{NodeFault, RingRx, RingTx, Turn};
use ds_base::{Sink, Source};
use grouper_node::GrouperNode;
use parser_node::ParserNode;
use query_node::QueryNode;
use result_merge::MergeNode;

/// A node that takes turns, whatever other nodes do meanwhile.
pub trait TakesTurn {
    /// Its promise.
    ghost Stands: { Self → Type 0 };

    /// What turns keep.
    ghost Goes: { Self → Self → Type 0 };

    /// Why a turn gave a fault.
    ghost Meets: { Self → Self → FaultSeen → Type 0 };

    /// The fault that it answers again.
    ghost fault: { Self → Option FaultSeen };

    /// Its pipes tell.
    ghost Tells: { Self → Type 0 };

    /// How the laws of rounds see it.
    ghost shown: { Self → Node };

    /// A turn, which moves at most `cut` bytes at a time over each pipe.
    fn turn(&mut self, cut: u32) -> Result<Turn, NodeFault>
        requires { 0 < cut }
        ensures went { Went Self Stands Goes Meets fault Tells shown self.old self.new }
        ensures fault { MatchResult result (λ _. fault self.new ≡ None) (λ bad. fault self.new ≡ Some bad) };

    /// No turn changes nothing.
    ghost stays: { (a : Self) → Goes a a };

    /// What is kept by some turns and by those after them is kept by all.
    ghost goes_on: { (a b c : Self) → Goes a b → Goes b c → Goes a c };

    /// Pipes go on telling.
    ghost tells_on: { (a b : Self) → Goes a b → Tells a → Tells b };
}

impl<'a, S: Source> TakesTurn for ParserNode<'a, S, RingTx, RingRx> {
    ghost Stands = { ParserStands };

    ghost Goes = { ParserGoes };

    ghost Meets = { ParserMeets };

    ghost fault = { λ n. n.fault };

    ghost Tells = { parser_tells };

    ghost shown = { parser_view };

    fn turn(&mut self, cut: u32) -> Result<Turn, NodeFault> {
        ParserNode::turn(self, cut)
    }

    ghost stays = { parser_stays };

    ghost goes_on = { parser_then };

    ghost tells_on = { parser_tells_on };
}

impl<'a> TakesTurn for GrouperNode<'a, RingTx, RingRx> {
    ghost Stands = { GrouperStands };

    ghost Goes = { GrouperGoes };

    ghost Meets = { GrouperMeets };

    ghost fault = { λ n. n.fault };

    ghost Tells = { grouper_tells };

    ghost shown = { grouper_view };

    fn turn(&mut self, cut: u32) -> Result<Turn, NodeFault> {
        GrouperNode::turn(self, cut)
    }

    ghost stays = { grouper_stays };

    ghost goes_on = { grouper_then };

    ghost tells_on = { grouper_tells_on };
}

impl<'a> TakesTurn for QueryNode<'a, RingTx, RingRx> {
    ghost Stands = { ProcessorStands };

    ghost Goes = { ProcessorGoes };

    ghost Meets = { ProcessorMeets };

    ghost fault = { λ n. n.fault };

    ghost Tells = { processor_tells };

    ghost shown = { processor_view };

    fn turn(&mut self, cut: u32) -> Result<Turn, NodeFault> {
        QueryNode::turn(self, cut)
    }

    ghost stays = { processor_stays };

    ghost goes_on = { processor_then };

    ghost tells_on = { processor_tells_on };
}

impl<'a, O: Sink> TakesTurn for MergeNode<'a, O, RingTx, RingRx> {
    ghost Stands = { λ n. MergeStands n.merge };

    ghost Goes = { MergeOn };

    ghost Meets = { λ a b bad. MergeMeets a.merge b.merge bad };

    ghost fault = { λ n. n.merge.fault };

    ghost Tells = { λ n. merge_tells n.merge };

    ghost shown = { λ n. merge_view n.merge };

    fn turn(&mut self, cut: u32) -> Result<Turn, NodeFault> {
        MergeNode::turn(self, cut)
    }

    ghost stays = { merge_on_stays };

    ghost goes_on = { merge_on_then };

    ghost tells_on = { merge_tells_on };
}

/// The last node of a bundle in which the merge is not: it has nothing to do.
#[derive(Drop)]
pub struct NoNode;

impl TakesTurn for NoNode {
    ghost Stands = { nothing };

    ghost Goes = { nothing_goes };

    ghost Meets = { nothing_meets };

    ghost fault = { no_fault };

    ghost Tells = { nothing };

    ghost shown = { no_view };

    fn turn(&mut self, _cut: u32) -> Result<Turn, NodeFault> {
        Ok(Turn::Done)
    }

    ghost stays = { λ a. tt };

    ghost goes_on = { λ a b c f g. tt };

    ghost tells_on = { λ a b f g. tt };
}
