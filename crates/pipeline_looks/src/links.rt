//! The loop over the senders of one node.
ghost use Rattle.std.specs.Prelude.{◌≡◌, ◌<◌, ◌≤◌, ◌+◌, ℕ, length, slice_index_or, slice_set};
ghost use Rattle.credit_link.specs.Ends.{TxSeen, RxSeen};
ghost use Rattle.credit_link.specs.Joined.{AreOneLink};
ghost use Rattle.node_lanes.specs.Lending.{ShowsOut};
ghost use Rattle.node_lanes.specs.Pulling.{ChangesLink};
ghost use Rattle.pipeline_looks.specs.Links.{ShowsLinks};

use crate::looking::LooksIn;
use ds_base::ItemList;
use node_lanes::LendsOut;

/// Shows both ends of each link from `senders` into `node` every byte and every free place of its rings. The link of
/// sender i is its link out of number `link`, and the node's link in of number `first + i`.
pub fn look_at_links<N: LooksIn, S: LendsOut>(
    node: &mut N,
    first: u32,
    senders: &mut ItemList<S>,
    link: u32,
)
    requires ins { (first + length senders.old.items ≤ length (N.ins node.old)) × (length (N.ins node.old) ≤ 64) }
    requires outs { (i : ℕ) (s : S) → i < length senders.old.items → link < length (S.outs (slice_index_or senders.old.items i s)).links }
    requires one { (i : ℕ) (s : S) (d : TxSeen) (e : RxSeen) → i < length senders.old.items → AreOneLink (slice_index_or (S.outs (slice_index_or senders.old.items i s)).links link d) (slice_index_or (N.ins node.old) (first + i) e) }
    ensures looked { N.Looked node.old node.new }
    ensures shows { ShowsLinks S S.outs S.Lends first link (length senders.old.items) senders.old.items senders.new.items (N.ins node.old) (N.ins node.new) }
{
    'senders: for i in 0..senders.len() {
        look_at_link(node, first + i as u32, senders, i, link);
    }
}

// The link of one sender.
fn look_at_link<N: LooksIn, S: LendsOut>(
    node: &mut N,
    j: u32,
    senders: &mut ItemList<S>,
    i: u64,
    link: u32,
)
    requires there { (j < length (N.ins node.old)) × (i < length senders.old.items) }
    requires out { (s : S) → link < length (S.outs (slice_index_or senders.old.items i s)).links }
    requires one { (s : S) (d : TxSeen) (e : RxSeen) → AreOneLink (slice_index_or (S.outs (slice_index_or senders.old.items i s)).links link d) (slice_index_or (N.ins node.old) j e) }
    ensures looked { N.Looked node.old node.new }
    ensures changes { ChangesLink (N.ins node.old) (N.ins node.new) j }
    ensures long { length senders.new.items ≡ length senders.old.items }
    ensures set { (s : S) → senders.new.items ≡ slice_set senders.old.items i (slice_index_or senders.new.items i s) }
    ensures lends { (s : S) → S.Lends (slice_index_or senders.old.items i s) (slice_index_or senders.new.items i s) }
    ensures shown { (s : S) (e : RxSeen) → ShowsOut (S.outs (slice_index_or senders.old.items i s)) (S.outs (slice_index_or senders.new.items i s)) link (slice_index_or (N.ins node.old) j e) (slice_index_or (N.ins node.new) j e) }
{
    node.look_at(j, senders.get_mut(i), link);
}
