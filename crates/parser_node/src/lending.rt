//! The loan of a parser's links over rings.
ghost use Rattle.std.specs.Prelude.{◌≡◌, ◌<◌, length, slice_index_or};
ghost use Rattle.credit_link.specs.Ends.{TxSeen};
ghost use Rattle.credit_link.specs.Joined.{AreOneLink};
ghost use Rattle.node_lanes.specs.Lending.{ShowsOut};
ghost use Rattle.parser_steps.specs.Seen.{seen_of};
ghost use Rattle.parser_steps.specs.Holds.{ParserHolds};
ghost use Rattle.parser_node.specs.Turning.{ChangesOuts};

use crate::node::ParserNode;
use credit_link::{LinkRx, RingRx, RingTx};
use ds_base::Source;
use node_lanes::LendsOut;

impl<'a, S: Source> LendsOut for ParserNode<'a, S, RingTx, RingRx> {
    ghost outs = { λ node. node.outs };

    ghost Lends = { ChangesOuts };

    fn beside(&mut self, link: u32, rx: &mut LinkRx<RingRx, RingTx>) {
        self.out.beside(link, rx);
    }
}
