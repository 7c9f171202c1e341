//! A turn of one node of each kind, and then a look at its links in.
ghost use Rattle.std.specs.Prelude.{◌≡◌, ◌<◌, ◌+◌, length};
ghost use Rattle.net_law.specs.Nets.{NetStands};
ghost use Rattle.pipeline_nodes.specs.Turns.{HasTurned};

use crate::Nodes;
use credit_link::{NodeFault, Turn};
use ds_base::{Sink, Source};
use pipeline_looks::{look_at_grouper, look_at_merge, look_at_processor};

impl<'a, S: Source, O: Sink> Nodes<'a, S, O> {
    /// A parser, which has no links in.
    pub(crate) fn turn_parser(&mut self, p: u32, cut: u32) -> Result<Turn, NodeFault>
        requires cut { 0 < cut }
        requires there { p < length self.old.net.parsers }
        requires stands { NetStands self.old.net }
        ensures turned { HasTurned p self.old.net self.new.net result }
        ensures lent { self.new.lent ≡ self.old.lent }
    {
        self.parsers.get_mut(p as u64).turn(cut)
    }

    /// A grouper, whose links in come from the parsers.
    pub(crate) fn turn_grouper(&mut self, g: u32, cut: u32) -> Result<Turn, NodeFault>
        requires cut { 0 < cut }
        requires there { g < length self.old.net.groupers }
        requires stands { NetStands self.old.net }
        ensures turned { HasTurned (self.old.net.shape.parsers + g) self.old.net self.new.net result }
        ensures lent { self.new.lent ≡ self.old.lent }
    {
        let node = self.groupers.get_mut(g as u64);
        let turned = node.turn(cut);
        look_at_grouper(node, g, &mut self.parsers);
        turned
    }

    /// A query processor, whose links in come from the groupers.
    pub(crate) fn turn_processor(&mut self, q: u32, cut: u32) -> Result<Turn, NodeFault>
        requires cut { 0 < cut }
        requires there { q < length self.old.net.processors }
        requires stands { NetStands self.old.net }
        ensures turned { HasTurned (self.old.net.shape.parsers + self.old.net.shape.groupers + q) self.old.net self.new.net result }
        ensures lent { self.new.lent ≡ self.old.lent }
    {
        let node = self.processors.get_mut(q as u64);
        let turned = node.turn(cut);
        look_at_processor(node, q, &mut self.groupers);
        turned
    }

    /// The merge, whose links in come from the parsers and the query processors.
    pub(crate) fn turn_merge(&mut self, cut: u32) -> Result<Turn, NodeFault>
        requires cut { 0 < cut }
        requires stands { NetStands self.old.net }
        ensures turned { HasTurned (self.old.net.shape.parsers + self.old.net.shape.groupers + self.old.net.shape.processors) self.old.net self.new.net result }
        ensures lent { self.new.lent ≡ self.old.lent }
    {
        let groupers = self.grouper_count();
        let turned = self.merge.turn(cut);
        look_at_merge(
            &mut self.merge,
            groupers,
            &mut self.parsers,
            &mut self.processors,
        );
        turned
    }
}
