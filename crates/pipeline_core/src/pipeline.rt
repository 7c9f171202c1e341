//! A pipeline and its turns.
ghost use Rattle.std.specs.Prelude.{◌≡◌, ◌≤◌, ◌<◌, ◌↔◌, ◌++◌, ℕ, List, true, None, Some, Err, IsNone, IfSome, IfOk, IfErr, All};
ghost use Rattle.credit_link.specs.declared.row.LinkRow.{LinkRow as RowSeen};
ghost use Rattle.credit_link.specs.declared.turn.NodeFault.{NodeFault as FaultSeen};
ghost use Rattle.round_law.specs.Turns.{IsTurn};
ghost use Rattle.run_law.specs.Laws.{HasWrittenFront};
ghost use Rattle.run_law.specs.Snapshot.{Snapshot};
ghost use Rattle.net_law.specs.Nets.{NetStands, EachPair, lists_of};
ghost use Rattle.net_law.specs.Rounds.{view, NoneHasFault, RowOf};
ghost use Rattle.net_law.specs.Steps.{AreLooked, NetGoes};
ghost use Rattle.net_law.specs.Turned.{IsAlike};
ghost use Rattle.run_rounds.specs.Faults.{node_count, fault_at};
ghost use Rattle.run_rounds.specs.Looked.{NodesLooked};
ghost use Rattle.run_rounds.specs.Runs.{AllAreDone};
ghost use Rattle.pipeline_law.specs.Laws.{TellsFiles};
ghost use Rattle.pipeline_law.specs.Rows.{rows_of};
ghost use Rattle.pipeline_nodes.specs.Nodes.{IsNoLink};
ghost use Rattle.pipeline_nodes.specs.Turns.{HasMet};
ghost use Rattle.pipeline_core.specs.Pipelines.{PipelineGoes};

use crate::keeping::turn_and_keep;
use credit_link::{LinkRows, NodeFault, Turn};
use ds_base::{Sink, Source};
use new_pipeline::SourceRoom;
use pipeline_nodes::Nodes;
use run_rounds::NodeAt;
use std::marker::Model;

/// All nodes and links of a run. Contracts see the nodes as plain values, the name of the reference to the sink, and the
/// first fault that a turn gave.
pub struct Pipeline<'a, S: Source, O: Sink> {
    /// All nodes, by their numbers.
    pub(crate) nodes: Nodes<'a, S, O>,
    /// Where the sources are gathered once the nodes are closed.
    pub(crate) room: SourceRoom<S>,
    /// How many captures there are, and so sources.
    pub(crate) captures: u64,
    /// No row yet, with room for those of all links.
    pub(crate) rows: LinkRows,
    /// The first fault that a turn gave, with the node's number.
    pub(crate) first: Option<NodeAt>,
}

impl<'a, S: Source, O: Sink> Model for Pipeline<'a, S, O> {
    ghost use Rattle.pipeline_core.specs.Pipelines.{PipelineSeen};

    ghost Value = { PipelineSeen };

    ghost use Rattle.std.specs.Coded.{codes};
    ghost use Rattle.net_law.specs.Codes.{expression_code};

    ghost coded = { Prim.hlevel (codes, expression_code) };

    ghost use Rattle.pipeline_core.specs.Pipelines.{PipelineHolds};

    ghost view = { λ p. record { net = p.nodes.net; lent = p.nodes.lent; fault = p.first } };

    ghost invariant = { λ p. PipelineHolds p.nodes.net p.first p.room.lists.items p.room.gathered p.captures p.rows };
}

impl<'a, S: Source, O: Sink> Pipeline<'a, S, O> {
    /// How many nodes there are: they are numbered parsers, groupers, processors, merge.
    pub fn node_count(&self) -> u32
        ensures stands { NetStands self.now.net }
        ensures count { result ≡ node_count self.now.net }
    {
        self.nodes.node_count()
    }

    /// The first fault that a turn gave, or None where no node has one. No node has a fault of a link.
    pub fn fault(&self) -> Option<NodeAt>
        ensures is { result ≡ self.now.fault }
        ensures none { IsNone result ↔ NoneHasFault self.now.net }
        ensures some { IfSome result (λ at. fault_at self.now.net at.node ≡ Some at.fault) }
        ensures no_link { (node : ℕ) (bad : FaultSeen) → fault_at self.now.net node ≡ Some bad → IsNoLink bad }
    {
        self.first
    }

    /// Whether all nodes are done, and none has met a fault.
    pub fn done(&self) -> bool
        ensures stands { NetStands self.now.net }
        ensures done { result ≡ true → AllAreDone self.now.net }
        ensures not_done { AllAreDone self.now.net → result ≡ true }
    {
        self.nodes.done()
    }

    /// Shows both ends of each link every byte and every free place of its rings. It moves nothing and takes no memory.
    pub fn look(&mut self)
        ensures stands { NetStands self.new.net }
        ensures goes { PipelineGoes self.old self.new }
        ensures looks { NodesLooked self.old.net self.new.net }
        ensures looked { EachPair (AreLooked self.new.net.credits) self.new.net }
        ensures fault { self.new.fault ≡ self.old.fault }
    {
        self.nodes.look();
    }

    /// A turn of the node of this number, which moves at most `cut` bytes at a time over each pipe, and then a look at its
    /// links in. A fault is kept, and every later turn of the node answers it again and moves nothing; it is never one of
    /// a link. What was written is a front of the report, whatever turns there were.
    pub fn turn(&mut self, node: u32, cut: u32) -> Result<Turn, NodeFault>
        requires cut { 0 < cut }
        requires there { node < node_count self.old.net }
        ensures stands { NetStands self.new.net }
        ensures goes { PipelineGoes self.old self.new }
        ensures alike { IsAlike self.old.net self.new.net }
        ensures turns { IfOk result (λ turn. NoneHasFault self.old.net → NoneHasFault self.new.net × IsTurn (RowOf self.old.net.credits turn) node (view self.old.net) (view self.new.net)) }
        ensures fine { IfOk result (λ _. fault_at self.new.net node ≡ None) }
        ensures fault { IfErr result (λ bad. fault_at self.new.net node ≡ Some bad) }
        ensures no_link { IfErr result (λ bad. IsNoLink bad) }
        ensures again { (bad : FaultSeen) → fault_at self.old.net node ≡ Some bad → (result ≡ Err bad) × NodesLooked self.old.net self.new.net }
        ensures causes { fault_at self.old.net node ≡ None → IfErr result (λ bad. HasMet node self.old.net self.new.net bad) }
        ensures meets { NoneHasFault self.old.net → IfErr result (λ bad. HasMet node self.old.net self.new.net bad) }
        ensures snapshot { (files : List (List ℕ)) (start : List ℕ) → TellsFiles self.old.net files → Snapshot self.new.net.job files self.new.net.shape start (lists_of self.new.net start) }
        ensures written { (files : List (List ℕ)) (start : List ℕ) → TellsFiles self.old.net files → HasWrittenFront self.new.net.job files start (start ++ self.new.net.merge.gained) }
        ensures held { All (λ (row : RowSeen). row.most_held ≤ self.new.net.credits) (rows_of self.new.net) }
    {
        turn_and_keep(&mut self.nodes, &mut self.first, node, cut)
    }
}
