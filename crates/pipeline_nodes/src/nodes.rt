//! All nodes of a pipeline, and their numbers.
ghost use Rattle.std.specs.Prelude.{◌≡◌, ◌<◌};
ghost use Rattle.summary_spec.specs.Job.{declared_of};
ghost use Rattle.net_law.specs.Nets.{NetStands};
ghost use Rattle.run_rounds.specs.Faults.{node_count};
ghost use Rattle.pipeline_nodes.specs.Nodes.{net_of};
ghost use Rattle.pipeline_nodes.specs.Looks.{StandsApart};
ghost use Rattle.pipeline_nodes.specs.Places.{IsPlaceOf};

use crate::place::NodePlace;
use credit_link::{RingRx, RingTx};
use ds_base::{Sink, Source};
use node_layers::{GrouperList, ParserList, ProcessorList};
use result_merge::MergeNode;
use std::marker::Model;
use summary_spec::Job;

/// All nodes of a pipeline over rings. They are numbered parsers, groupers, processors, merge.
pub struct Nodes<'a, S: Source, O: Sink> {
    /// The job that they all do.
    pub job: &'a Job,
    /// How many frames may be held at once on each link.
    pub credits: u32,
    pub parsers: ParserList<'a, S>,
    pub groupers: GrouperList<'a>,
    pub processors: ProcessorList<'a>,
    pub merge: MergeNode<'a, O, RingTx, RingRx>,
}

impl<'a, S: Source, O: Sink> Model for Nodes<'a, S, O> {
    ghost use Rattle.pipeline_nodes.specs.Nodes.{NodesSeen};

    ghost Value = { NodesSeen };

    ghost use Rattle.std.specs.Coded.{codes};
    ghost use Rattle.net_law.specs.Codes.{expression_code};

    ghost coded = { Prim.hlevel (codes, expression_code) };

    ghost use Rattle.summary_spec.specs.Job.{declared_of};
    ghost use Rattle.pipeline_nodes.specs.Nodes.{net_of};

    ghost view = { λ n. record { net = net_of (declared_of n.job.now) n.credits n.parsers.items n.groupers.items n.processors.items n.merge.merge; lent = n.merge.lent } };
}

impl<'a, S: Source, O: Sink> Nodes<'a, S, O> {
    /// The nodes of a pipeline of one job, whose links have so many credits.
    pub fn new(
        job: &'a Job,
        credits: u32,
        parsers: ParserList<'a, S>,
        groupers: GrouperList<'a>,
        processors: ProcessorList<'a>,
        merge: MergeNode<'a, O, RingTx, RingRx>,
    ) -> Self
        ensures net { result.net ≡ net_of (declared_of job.now) credits parsers.entry.items groupers.entry.items processors.entry.items merge.entry.merge }
        ensures lent { result.lent ≡ merge.entry.lent }
    {
        Nodes {
            job,
            credits,
            parsers,
            groupers,
            processors,
            merge,
        }
    }

    /// How many nodes there are, at most 49.
    #[tactic(auto, using(crate::proofs::Looked::apart))]
    pub fn node_count(&self) -> u32
        requires stands { NetStands self.now.net }
        ensures count { result ≡ node_count self.now.net }
    {
        self.parser_count() + self.grouper_count() + self.processor_count() + 1
    }

    /// Which node a number is.
    #[tactic(auto, using(crate::proofs::Looked::apart))]
    pub(crate) fn place(&self, node: u32) -> NodePlace
        requires stands { NetStands self.now.net }
        requires there { node < node_count self.now.net }
        ensures { IsPlaceOf self.now.net node result }
    {
        let parsers = self.parser_count();
        if node < parsers {
            return NodePlace::Parser(node);
        }
        let behind = node - parsers;
        let groupers = self.grouper_count();
        if behind < groupers {
            return NodePlace::Grouper(behind);
        }
        let last = behind - groupers;
        if last < self.processor_count() {
            return NodePlace::Processor(last);
        }
        NodePlace::Merge
    }

    fn parser_count(&self) -> u32
        requires { StandsApart self.now.net }
        ensures is { result ≡ self.now.net.shape.parsers }
        ensures few { result < 17 }
    {
        self.parsers.len() as u32
    }

    pub(crate) fn grouper_count(&self) -> u32
        requires { StandsApart self.now.net }
        ensures is { result ≡ self.now.net.shape.groupers }
        ensures few { result < 17 }
    {
        self.groupers.len() as u32
    }

    pub(crate) fn processor_count(&self) -> u32
        requires { StandsApart self.now.net }
        ensures is { result ≡ self.now.net.shape.processors }
        ensures few { result < 17 }
    {
        self.processors.len() as u32
    }
}
