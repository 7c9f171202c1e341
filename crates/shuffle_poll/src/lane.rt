//! A lane: a link's sending end, and the frames that wait for it.
ghost use Rattle.std.specs.Prelude.{◌≡◌, ◌≢◌, ◌<◌, ◌≤◌, ◌⊎◌, Bool, true, false, IsTrue, if◌then◌else◌, IfOk, IfErr, [], ◌++◌, length, None, Some};
ghost use Rattle.credit_link.specs.Ends.{TxStands};
ghost use Rattle.credit_link.specs.Frames.{FinishIsLast};
ghost use Rattle.credit_link.specs.Pumping.{TxFails, TxKeeps};
ghost use Rattle.shuffle_poll.specs.declared.needs.Need.TheVariants.{Nothing, Credit, Room};
ghost use Rattle.shuffle_poll.specs.Lanes.{put_on, OffersFront};
ghost use Rattle.shuffle_poll.specs.Polling.{LanePolls, LaneFails};

use crate::needs::{Need, Passed};
use crate::queue::Queue;
use credit_link::{LinkBad, LinkTx, NamedRx, NamedTx};

/// Offers the first frame that waits where the link is ready for it.
pub(crate) fn offer_front<T: NamedTx, R: NamedRx>(tx: &mut LinkTx<T, R>, queue: &mut Queue)
    requires { FinishIsLast (tx.old.offered ++ queue.old) }
    ensures offers { OffersFront (record { tx = tx.old; queue = queue.old }) (record { tx = tx.new; queue = queue.new }) }
    ensures stands { TxStands tx.new }
{
    if !tx.ready() {
        return;
    }
    if let Some(frame) = queue.front() {
        tx.offer(frame);
        queue.drop_front();
    }
}

/// One poll of a lane: what is ready is offered, the link is pumped once, and what became ready is offered.
pub(crate) fn poll_lane<T: NamedTx, R: NamedRx>(
    tx: &mut LinkTx<T, R>,
    queue: &mut Queue,
    cut: u32,
) -> Result<Passed, LinkBad>
    requires { FinishIsLast (tx.old.offered ++ queue.old) }
    ensures polls { IfOk result (λ answer. LanePolls (record { tx = tx.old; queue = queue.old }) (record { tx = tx.new; queue = queue.new }) cut answer) }
    ensures fails { IfErr result (λ bad. LaneFails (record { tx = tx.old; queue = queue.old }) (record { tx = tx.new; queue = queue.new }) cut bad) }
    ensures all_put { put_on (record { tx = tx.new; queue = queue.new }) ≡ put_on (record { tx = tx.old; queue = queue.old }) }
    ensures fewer { length queue.new ≤ length queue.old }
    ensures stands { TxStands tx.new }
{
    offer_front(tx, queue);
    let held = tx.held();
    let moved = match tx.pump(cut) {
        Ok(moved) => moved,
        Err(bad) => return Err(bad),
    };
    let back = tx.held();
    offer_front(tx, queue);
    let lacks = lacks_credit(held, back, tx.held(), tx.credits());
    let need = need_of(queue.len() > 0, lacks);
    Ok(Passed { moved, need })
}

// Whether no credit came back of those that could, and as many frames are held now as there are credits.
fn lacks_credit(before: u32, after: u32, held: u32, credits: u32) -> bool
    ensures lacks { IsTrue result → (0 < before) × (after ≡ before) × (held ≡ credits) }
    ensures other { result ≡ false → 0 < before → after ≡ before → held ≢ credits }
{
    before > 0 && after == before && held == credits
}

// What the frame that waits needs.
fn need_of(waits: bool, lacks: bool) -> Need
    ensures { result ≡ (if waits then (if lacks then Credit else Room) else Nothing) }
{
    if !waits {
        Need::Nothing
    } else if lacks {
        Need::Credit
    } else {
        Need::Room
    }
}
