//! The nodes by their ends of links.
ghost use Rattle.std.specs.Prelude.{◌≡◌, ◌<◌, List, length, slice_index_or};
ghost use Rattle.credit_link.specs.Ends.{TxSeen, RxSeen};
ghost use Rattle.credit_link.specs.Frames.{capped};
ghost use Rattle.shuffle_poll.specs.Shuffles.{row_of};
ghost use Rattle.node_lanes.specs.Ends.{given_on};

use credit_link::{LinkRow, NamedRx, NamedTx};
use ds_base::{Sink, Source};
use grouper_node::GrouperNode;
use parser_node::ParserNode;
use query_node::QueryNode;
use result_merge::MergeNode;

/// A node that sends over links.
pub(crate) trait SendsFrames {
    /// Its links out.
    ghost outs: { Self → List TxSeen };

    /// The row of one of them.
    fn row_out(&self, link: u32, from: u32, to: u32, taken: u64) -> LinkRow
        requires { link < length (outs self.now) }
        ensures { (d : TxSeen) → result ≡ row_of (slice_index_or (outs self.now) link d) from to taken };
}

/// A node that receives over links.
pub(crate) trait TakesFrames {
    /// Its links in.
    ghost ins: { Self → List RxSeen };

    /// How many frames were taken off one of them.
    fn taken_in(&self, link: u32) -> u64
        requires { link < length (ins self.now) }
        ensures { result ≡ capped (length (given_on (ins self.now) link)) };
}

impl<'a, S: Source, T: NamedTx, R: NamedRx> SendsFrames for ParserNode<'a, S, T, R> {
    ghost outs = { λ n. n.outs.links };

    fn row_out(&self, link: u32, from: u32, to: u32, taken: u64) -> LinkRow {
        self.row(link, from, to, taken)
    }
}

impl<'a, T: NamedTx, R: NamedRx> SendsFrames for GrouperNode<'a, T, R> {
    ghost outs = { λ n. n.outs.links };

    fn row_out(&self, link: u32, from: u32, to: u32, taken: u64) -> LinkRow {
        self.row(link, from, to, taken)
    }
}

impl<'a, T: NamedTx, R: NamedRx> SendsFrames for QueryNode<'a, T, R> {
    ghost outs = { λ n. n.outs.links };

    fn row_out(&self, link: u32, from: u32, to: u32, taken: u64) -> LinkRow {
        self.row(link, from, to, taken)
    }
}

impl<'a, T: NamedTx, R: NamedRx> TakesFrames for GrouperNode<'a, T, R> {
    ghost ins = { λ n. n.ins };

    fn taken_in(&self, link: u32) -> u64 {
        self.taken(link)
    }
}

impl<'a, T: NamedTx, R: NamedRx> TakesFrames for QueryNode<'a, T, R> {
    ghost ins = { λ n. n.ins };

    fn taken_in(&self, link: u32) -> u64 {
        self.taken(link)
    }
}

impl<'a, O: Sink, T: NamedTx, R: NamedRx> TakesFrames for MergeNode<'a, O, T, R> {
    ghost ins = { λ n. n.merge.ins };

    fn taken_in(&self, link: u32) -> u64 {
        self.taken(link)
    }
}
