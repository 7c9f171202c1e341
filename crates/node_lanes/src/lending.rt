//! The loan by which both ends of a link over rings are shown its rings.
ghost use Rattle.std.specs.Prelude.{◌<◌, ℕ, length, slice_index_or};
ghost use Rattle.credit_link.specs.Ends.{TxSeen, RxSeen, RxStands};
ghost use Rattle.credit_link.specs.Joined.{AreOneLink};
ghost use Rattle.shuffle_poll.specs.Shuffles.{ShuffleSeen};
ghost use Rattle.node_lanes.specs.Ends.{InsStand, InsGo};
ghost use Rattle.node_lanes.specs.Lending.{ShowsOut};
ghost use Rattle.node_lanes.specs.Pulling.{ChangesLink};

use credit_link::{LinkRx, LinkRxList, RingRx, RingTx};

/// A node that sends over links of rings.
pub trait LendsOut {
    /// Its links out.
    ghost outs: { Self → ShuffleSeen };

    /// What is true of it before and after a loan, beside what became of its links out.
    ghost Lends: { Self → Self → Type 0 };

    /// Shows both ends of its link out of this number every byte and every free place of their rings.
    fn beside(&mut self, link: u32, rx: &mut LinkRx<RingRx, RingTx>)
        requires there { link < length (outs self.old).links }
        requires one { (d : TxSeen) → AreOneLink (slice_index_or (outs self.old).links link d) rx.old }
        ensures lends { Lends self.old self.new }
        ensures shown { ShowsOut (outs self.old) (outs self.new) link rx.old rx.new };
}

/// Lends link `j` in to the node that sends over it, as its link out of number `link`, so that both ends are
/// shown their rings.
pub fn lend_in<S: LendsOut>(ins: &mut LinkRxList<RingRx, RingTx>, j: u32, sender: &mut S, link: u32)
    requires there { (j < length ins.old.items) × (link < length (S.outs sender.old).links) }
    requires one { (d : TxSeen) (e : RxSeen) → AreOneLink (slice_index_or (S.outs sender.old).links link d) (slice_index_or ins.old.items j e) }
    ensures lends { S.Lends sender.old sender.new }
    ensures changes { ChangesLink ins.old.items ins.new.items j }
    ensures shown { (e : RxSeen) → ShowsOut (S.outs sender.old) (S.outs sender.new) link (slice_index_or ins.old.items j e) (slice_index_or ins.new.items j e) }
    ensures stands { (e : RxSeen) → RxStands (slice_index_or ins.new.items j e) }
{
    lend_end(ins.get_mut(j as u64), sender, link);
}

// One receiving end is lent.
fn lend_end<S: LendsOut>(rx: &mut LinkRx<RingRx, RingTx>, sender: &mut S, link: u32)
    requires there { link < length (S.outs sender.old).links }
    requires one { (d : TxSeen) → AreOneLink (slice_index_or (S.outs sender.old).links link d) rx.old }
    ensures lends { S.Lends sender.old sender.new }
    ensures shown { ShowsOut (S.outs sender.old) (S.outs sender.new) link rx.old rx.new }
    ensures stands { RxStands rx.new }
{
    sender.beside(link, rx);
    let _ = rx.owed();
}
