//! Whether all nodes are done.
ghost use Rattle.std.specs.Prelude.{◌≡◌, true, false, length};
ghost use Rattle.net_law.specs.Parsers.{ParserSeen, parser_view};
ghost use Rattle.net_law.specs.Groupers.{GrouperSeen, grouper_view};
ghost use Rattle.net_law.specs.Processors.{ProcessorSeen, processor_view};
ghost use Rattle.net_law.specs.Nets.{NetStands};
ghost use Rattle.run_rounds.specs.Runs.{AllAreDone};
ghost use Rattle.pipeline_nodes.specs.Done.{AreDone, SomeIsNotDone};

use crate::Nodes;
use ds_base::{Sink, Source};
use node_layers::{GrouperList, ParserList, ProcessorList};

impl<'a, S: Source, O: Sink> Nodes<'a, S, O> {
    /// Whether all nodes are done, and none has met a fault.
    pub fn done(&self) -> bool
        requires stands { NetStands self.now.net }
        ensures done { result ≡ true → AllAreDone self.now.net }
        ensures not_done { AllAreDone self.now.net → result ≡ true }
    {
        if !parsers_done(&self.parsers) {
            return false;
        }
        if !groupers_done(&self.groupers) {
            return false;
        }
        if !processors_done(&self.processors) {
            return false;
        }
        self.merge.done()
    }
}

fn parsers_done<'a, S: Source>(parsers: &ParserList<'a, S>) -> bool
    ensures all { result ≡ true → AreDone (λ (s : ParserSeen). s.fault) parser_view (length parsers.now.items) parsers.now.items }
    ensures not_all { result ≡ false → SomeIsNotDone (λ (s : ParserSeen). s.fault) parser_view parsers.now.items }
{
    'nodes: for i in 0..parsers.len() {
        if !parsers.get(i).done() {
            return false;
        }
    }
    true
}

fn groupers_done(groupers: &GrouperList<'_>) -> bool
    ensures all { result ≡ true → AreDone (λ (s : GrouperSeen). s.fault) grouper_view (length groupers.now.items) groupers.now.items }
    ensures not_all { result ≡ false → SomeIsNotDone (λ (s : GrouperSeen). s.fault) grouper_view groupers.now.items }
{
    'nodes: for i in 0..groupers.len() {
        if !groupers.get(i).done() {
            return false;
        }
    }
    true
}

fn processors_done(processors: &ProcessorList<'_>) -> bool
    ensures all { result ≡ true → AreDone (λ (s : ProcessorSeen). s.fault) processor_view (length processors.now.items) processors.now.items }
    ensures not_all { result ≡ false → SomeIsNotDone (λ (s : ProcessorSeen). s.fault) processor_view processors.now.items }
{
    'nodes: for i in 0..processors.len() {
        if !processors.get(i).done() {
            return false;
        }
    }
    true
}
