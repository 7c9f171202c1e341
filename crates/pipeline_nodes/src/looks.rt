//! A look at all links.
ghost use Rattle.std.specs.Prelude.{◌≡◌, ◌<◌, length};
ghost use Rattle.net_law.specs.Nets.{EachPair};
ghost use Rattle.net_law.specs.Steps.{AreLooked};
ghost use Rattle.pipeline_nodes.specs.Nodes.{NodesStand};
ghost use Rattle.run_rounds.specs.Looked.{NodesLooked};
ghost use Rattle.pipeline_nodes.specs.Looks.{StandsApart, GrouperIsLookedAt, ProcessorIsLookedAt, MergeIsLookedAt, GroupersAreLookedAt, ProcessorsAreLookedAt};

use crate::Nodes;
use ds_base::{Sink, Source};
use pipeline_looks::{look_at_grouper, look_at_merge, look_at_processor};

impl<'a, S: Source, O: Sink> Nodes<'a, S, O> {
    /// Shows both ends of each link every byte and every free place of its rings. It moves nothing and takes no memory.
    pub fn look(&mut self)
        requires stands { NodesStand self.old.net }
        ensures stands { NodesStand self.new.net }
        ensures lent { self.new.lent ≡ self.old.lent }
        ensures looks { NodesLooked self.old.net self.new.net }
        ensures looked { EachPair (AreLooked self.new.net.credits) self.new.net }
    {
        self.look_at_all();
    }

    /// The same, whatever faults the nodes have met, and whatever turns they took side by side. What was taken on each link is
    /// then again a front of what was sent.
    pub fn look_at_all(&mut self)
        requires stands { StandsApart self.old.net }
        ensures stands { StandsApart self.new.net }
        ensures lent { self.new.lent ≡ self.old.lent }
        ensures looks { NodesLooked self.old.net self.new.net }
        ensures looked { EachPair (AreLooked self.new.net.credits) self.new.net }
    {
        self.look_at_groupers();
        self.look_at_processors();
        self.look_at_merge();
    }

    fn look_at_groupers(&mut self)
        requires { StandsApart self.old.net }
        ensures looks { GroupersAreLookedAt self.old.net.shape.groupers self.old.net self.new.net }
        ensures stands { StandsApart self.new.net }
        ensures lent { self.new.lent ≡ self.old.lent }
    {
        let count = self.grouper_count();
        'groupers: for g in 0..count {
            self.look_at_grouper(g);
        }
    }

    fn look_at_processors(&mut self)
        requires { StandsApart self.old.net }
        ensures looks { ProcessorsAreLookedAt self.old.net.shape.processors self.old.net self.new.net }
        ensures stands { StandsApart self.new.net }
        ensures lent { self.new.lent ≡ self.old.lent }
    {
        let count = self.processor_count();
        'processors: for q in 0..count {
            self.look_at_processor(q);
        }
    }

    // The links into one grouper.
    fn look_at_grouper(&mut self, g: u32)
        requires stands { StandsApart self.old.net }
        requires there { g < length self.old.net.groupers }
        ensures looks { GrouperIsLookedAt g self.old.net self.new.net }
        ensures stands { StandsApart self.new.net }
        ensures lent { self.new.lent ≡ self.old.lent }
    {
        look_at_grouper(self.groupers.get_mut(g as u64), g, &mut self.parsers);
    }

    // The links into one processor.
    fn look_at_processor(&mut self, q: u32)
        requires stands { StandsApart self.old.net }
        requires there { q < length self.old.net.processors }
        ensures looks { ProcessorIsLookedAt q self.old.net self.new.net }
        ensures stands { StandsApart self.new.net }
        ensures lent { self.new.lent ≡ self.old.lent }
    {
        look_at_processor(self.processors.get_mut(q as u64), q, &mut self.groupers);
    }

    // The links into the merge.
    fn look_at_merge(&mut self)
        requires { StandsApart self.old.net }
        ensures looks { MergeIsLookedAt self.old.net self.new.net }
        ensures stands { StandsApart self.new.net }
        ensures lent { self.new.lent ≡ self.old.lent }
    {
        let groupers = self.grouper_count();
        look_at_merge(
            &mut self.merge,
            groupers,
            &mut self.parsers,
            &mut self.processors,
        );
    }
}
