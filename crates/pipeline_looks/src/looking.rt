//! The nodes that receive over links of rings.
ghost use Rattle.std.specs.Prelude.{◌<◌, ℕ, List, length, slice_index_or};
ghost use Rattle.credit_link.specs.Ends.{TxSeen, RxSeen};
ghost use Rattle.credit_link.specs.Joined.{AreOneLink};
ghost use Rattle.node_lanes.specs.Lending.{ShowsOut};
ghost use Rattle.node_lanes.specs.Pulling.{ChangesLink};
ghost use Rattle.pipeline_looks.specs.Looking.{GrouperIn, ProcessorIn, MergeIn, grouper_stays, grouper_goes_on, processor_stays, processor_goes_on, merge_stays, merge_goes_on};

use credit_link::{RingRx, RingTx};
use ds_base::Sink;
use grouper_node::GrouperNode;
use node_lanes::LendsOut;
use query_node::QueryNode;
use result_merge::MergeNode;

/// A node that receives over links of rings.
pub trait LooksIn {
    /// Its links in.
    ghost ins: { Self → List RxSeen };

    /// What is true of it before and after looks, beside what became of its links in.
    ghost Looked: { Self → Self → Type 0 };

    /// Shows both ends of link `j` in every byte and every free place of its rings: it is lent to `sender`, whose
    /// link out of number `link` it is.
    fn look_at<S: LendsOut>(&mut self, j: u32, sender: &mut S, link: u32)
        requires there { (j < length (ins self.old)) × (link < length (S.outs sender.old).links) }
        requires one { (d : TxSeen) (e : RxSeen) → AreOneLink (slice_index_or (S.outs sender.old).links link d) (slice_index_or (ins self.old) j e) }
        ensures looked { Looked self.old self.new }
        ensures changes { ChangesLink (ins self.old) (ins self.new) j }
        ensures lends { S.Lends sender.old sender.new }
        ensures shown { (e : RxSeen) → ShowsOut (S.outs sender.old) (S.outs sender.new) link (slice_index_or (ins self.old) j e) (slice_index_or (ins self.new) j e) };

    /// No look changes nothing.
    ghost stays: { (a : Self) → Looked a a };

    /// Two looks are one.
    ghost goes_on: { (a b c : Self) → Looked a b → Looked b c → Looked a c };
}

impl<'a> LooksIn for GrouperNode<'a, RingTx, RingRx> {
    ghost ins = { λ n. n.ins };

    ghost Looked = { GrouperIn };

    ghost stays = { grouper_stays };

    ghost goes_on = { grouper_goes_on };

    fn look_at<S: LendsOut>(&mut self, j: u32, sender: &mut S, link: u32) {
        self.look_in(j, sender, link);
    }
}

impl<'a> LooksIn for QueryNode<'a, RingTx, RingRx> {
    ghost ins = { λ n. n.ins };

    ghost Looked = { ProcessorIn };

    ghost stays = { processor_stays };

    ghost goes_on = { processor_goes_on };

    fn look_at<S: LendsOut>(&mut self, j: u32, sender: &mut S, link: u32) {
        self.look_in(j, sender, link);
    }
}

impl<'a, O: Sink> LooksIn for MergeNode<'a, O, RingTx, RingRx> {
    ghost ins = { λ n. n.merge.ins };

    ghost Looked = { MergeIn };

    ghost stays = { merge_stays };

    ghost goes_on = { merge_goes_on };

    fn look_at<S: LendsOut>(&mut self, j: u32, sender: &mut S, link: u32) {
        self.look_in(j, sender, link);
    }
}
