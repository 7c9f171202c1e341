//! Frames off one link in.
ghost use Rattle.std.specs.Prelude.{◌≡◌, ◌<◌, ◌+◌, ◌-◌, ℕ, List, [], ◌∷◌, ◌++◌, length, slice_index_or, slice_set};
ghost use Rattle.node_frames.specs.declared.frame.Frame.{Frame as Taken};
ghost use Rattle.credit_link.specs.declared.link_bad.LinkBad.TheVariants.{Order};
ghost use Rattle.credit_link.specs.declared.turn.NodeFault.TheVariants.{Link};
ghost use Rattle.credit_link.specs.Frames.{capped, bytes_of_all};
ghost use Rattle.credit_link.specs.Ends.{RxSeen, RxStands, rx_of, receiver_of};
ghost use Rattle.credit_link.specs.Pulling.{PullAnswers};
ghost use Rattle.node_lanes.specs.Ends.{given_on, InsStand, InsGo};
ghost use Rattle.node_lanes.specs.Pulling.{ChangesLink, PullsAt};

use credit_link::{LinkBad, LinkRxList, NamedRx, NamedTx, NodeFault};
use node_frames::Frame;

/// The next frame of link `j` in. None: no whole frame of it has come. A fault names the link.
pub fn pull_at<R: NamedRx, T: NamedTx>(
    ins: &mut LinkRxList<R, T>,
    j: u32,
) -> Result<Option<Frame>, NodeFault>
    requires { j < length ins.old.items }
    ensures changes { ChangesLink ins.old.items ins.new.items j }
    ensures pulls { (d : RxSeen) → PullsAt j (slice_index_or ins.old.items j d) (slice_index_or ins.new.items j d) result }
    ensures stand { (credits : ℕ) → InsStand credits ins.old.items → InsStand credits ins.new.items }
    ensures goes { InsGo ins.old.items ins.new.items }
{
    match pull_link(ins, j as u64) {
        Ok(pulled) => Ok(pulled),
        Err(bad) => Err(NodeFault::Link { link: j, bad }),
    }
}

/// Owes the sender of link `j` in one credit, for a frame that was pulled and not yet granted.
pub fn grant_at<R: NamedRx, T: NamedTx>(ins: &mut LinkRxList<R, T>, j: u32)
    requires { (j < length ins.old.items) × ((d : RxSeen) → 0 < (slice_index_or ins.old.items j d).ungranted) }
    ensures changes { ChangesLink ins.old.items ins.new.items j }
    ensures grants { (d : RxSeen) → slice_index_or ins.new.items j d ≡ record (slice_index_or ins.old.items j d) { owed = capped ((slice_index_or ins.old.items j d).owed + 1); ungranted = (slice_index_or ins.old.items j d).ungranted - 1 } }
    ensures stand { (credits : ℕ) → InsStand credits ins.old.items → InsStand credits ins.new.items }
    ensures goes { InsGo ins.old.items ins.new.items }
{
    grant_link(ins, j as u64);
}

/// The fault of the frame that was pulled last off link `j` in and may not stand there.
pub fn refuse_order<R: NamedRx, T: NamedTx>(ins: &LinkRxList<R, T>, j: u32) -> NodeFault
    requires { (j < length ins.now.items) × (0 < length (given_on ins.now.items j)) }
    ensures { (frames : List Taken) (frame : Taken) → given_on ins.now.items j ≡ frames ++ frame ∷ [] → result ≡ Link j (Order (capped (length (bytes_of_all frames)))) }
{
    NodeFault::Link {
        link: j,
        bad: LinkBad::Order {
            at: ins.get(j as u64).last_at(),
        },
    }
}

// One link is pulled, and the others are left alone.
fn pull_link<R: NamedRx, T: NamedTx>(
    ins: &mut LinkRxList<R, T>,
    j: u64,
) -> Result<Option<Frame>, LinkBad>
    requires { j < length ins.old.items }
    ensures long { length ins.new.items ≡ length ins.old.items }
    ensures set { (d : RxSeen) → ins.new.items ≡ slice_set ins.old.items j (slice_index_or ins.new.items j d) }
    ensures answers { (d : RxSeen) → PullAnswers (receiver_of (slice_index_or ins.old.items j d)) (receiver_of (slice_index_or ins.new.items j d)) result }
    ensures pipes { (d : RxSeen) → slice_index_or ins.new.items j d ≡ rx_of (receiver_of (slice_index_or ins.new.items j d)) (slice_index_or ins.old.items j d).forth (slice_index_or ins.old.items j d).back (slice_index_or ins.old.items j d).forth_name (slice_index_or ins.old.items j d).back_name }
    ensures stands { (d : RxSeen) → RxStands (slice_index_or ins.new.items j d) }
{
    match ins.get_mut(j).pull() {
        Ok(pulled) => Ok(pulled),
        Err(bad) => Err(bad),
    }
}

// A frame of one link is granted.
fn grant_link<R: NamedRx, T: NamedTx>(ins: &mut LinkRxList<R, T>, j: u64)
    requires { (j < length ins.old.items) × ((d : RxSeen) → 0 < (slice_index_or ins.old.items j d).ungranted) }
    ensures long { length ins.new.items ≡ length ins.old.items }
    ensures set { (d : RxSeen) → ins.new.items ≡ slice_set ins.old.items j (slice_index_or ins.new.items j d) }
    ensures grants { (d : RxSeen) → slice_index_or ins.new.items j d ≡ record (slice_index_or ins.old.items j d) { owed = capped ((slice_index_or ins.old.items j d).owed + 1); ungranted = (slice_index_or ins.old.items j d).ungranted - 1 } }
    ensures stands { (d : RxSeen) → RxStands (slice_index_or ins.new.items j d) }
{
    ins.get_mut(j).grant();
}
