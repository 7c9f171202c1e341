//! The links that lead from one node to others, and the frames that wait for them.
ghost use Rattle.std.specs.Prelude.{slice_index_or, slice_set, ◌≢◌, ◌≡◌, ◌<◌, ◌≤◌, ◌+◌, ℕ, List, true, false, IsTrue, IfOk, IfErr, OnOk, [], ◌∷◌, ◌++◌, length, sum_by, replicate, ◌^◌, ◌||◌, nat_lt, if◌then◌else◌};
ghost use Rattle.credit_link.specs.Ends.{TxSeen, TxStands};
ghost use Rattle.credit_link.specs.Joined.{AreOneLink};
ghost use Rattle.credit_link.specs.Frames.{FinishIsLast, has_finish};
ghost use Rattle.shuffle_poll.specs.declared.needs.Polled.TheVariants.{Ready};
ghost use Rattle.shuffle_poll.specs.declared.needs.Passed.{Passed as Answer};
ghost use Rattle.shuffle_poll.specs.Lanes.{put_on};
ghost use Rattle.shuffle_poll.specs.Polling.{LanePolls, LaneFails};
ghost use Rattle.shuffle_poll.specs.Needs.{is_credit, is_room};
ghost use Rattle.shuffle_poll.specs.Shuffles.{lane_at, lane_of, row_of, IsSettled, Shows, ChangesLane, PollsLanes, FailsAt, ShuffleHolds};

use crate::lane::poll_lane;
use crate::needs::{Need, Needs, Passed, Polled, ShuffleFault};
use crate::queue::Queue;
use credit_link::{LinkBad, LinkRow, LinkRx, LinkTx, LinkTxList, NamedRx, NamedTx, RingRx, RingTx};
use ds_base::OutOfMemory;
use ghost_list::GhostList;
use node_frames::Frame;
use std::alloc::Global;
use std::marker::Model;

/// The links that could not be made a shuffle for want of memory.
#[derive(Drop)]
pub struct NoShuffle<T: NamedTx, R: NamedRx> {
    pub links: LinkTxList<T, R>,
}

/// The links that lead from one node to others, each with at most two frames that wait for it.
#[derive(Drop)]
pub struct Shuffle<T: NamedTx, R: NamedRx> {
    links: LinkTxList<T, R>,
    queues: Vec<Queue>,
}

impl<T: NamedTx, R: NamedRx> Model for Shuffle<T, R> {
    ghost use Rattle.shuffle_poll.specs.Shuffles.{ShuffleSeen};

    ghost Value = { ShuffleSeen };

    ghost view = { λ s. record { links = s.links.items; queues = s.queues.items } };

    ghost use Rattle.shuffle_poll.specs.Shuffles.{ShuffleHolds};

    ghost invariant = { λ s. ShuffleHolds s.links.items s.queues.items };
}

impl<T: NamedTx, R: NamedRx> Shuffle<T, R> {
    /// A shuffle over 1 to 17 links, on which nothing waits. It is refused for want of memory alone, and
    /// takes all memory that it ever needs.
    pub fn new(alloc: Global, links: LinkTxList<T, R>) -> Result<Self, NoShuffle<T, R>>
        requires { (1 ≤ length links.items) × (length links.items ≤ 17) }
        ensures fresh { IfOk result (λ s. s ≡ record { links = links.items; queues = replicate (length links.items) [] }) }
        ensures holds { IfOk result (λ s. ShuffleHolds s.links s.queues) }
        ensures refused { IfErr result (λ no. no.links.items ≡ links.items) }
    {
        show_standing(&links);
        let count = links.len() as usize;
        match empty_queues(alloc, count) {
            Ok(queues) => Ok(Shuffle { links, queues }),
            Err(_) => Err(NoShuffle { links }),
        }
    }

    /// Offers what is ready, pumps each link once, and offers what became ready. Ready exactly where no frame
    /// waits at its end; `needs` then names no link. A fault is that of the lowest link that met one.
    pub fn poll(&mut self, cut: u32, needs: &mut Needs) -> Result<Polled, ShuffleFault>
        ensures holds { ShuffleHolds self.new.links self.new.queues }
        ensures as_many { length self.new.links ≡ length self.old.links }
        ensures all_put { (k : ℕ) (d : TxSeen) → put_on (lane_of self.new k d) ≡ put_on (lane_of self.old k d) }
        ensures polls { IfOk result (λ _. (answers : List Answer) × (length answers ≡ length self.old.links) × PollsLanes self.old.links self.new.links self.old.queues self.new.queues cut needs.new answers) }
        ensures ready { IfOk result (λ polled. (polled ≡ Ready → (k : ℕ) → slice_index_or self.new.queues k [] ≡ []) × (((k : ℕ) → slice_index_or self.new.queues k [] ≡ []) → polled ≡ Ready)) }
        ensures fails { IfErr result (λ fault. FailsAt self.old.links self.new.links self.old.queues self.new.queues cut fault) }
        ensures unwritten { IfErr result (λ _. needs.new ≡ needs.old) }
    {
        match poll_all(&mut self.links, &mut self.queues, cut, needs) {
            Ok(()) => {
                if some_wait(&self.queues) {
                    Ok(Polled::Pending)
                } else {
                    Ok(Polled::Ready)
                }
            }
            Err(fault) => Err(fault),
        }
    }

    /// Puts a frame on one link, on which fewer than two frames wait and the end was not put.
    pub fn put(&mut self, link: u32, frame: Frame)
        requires room { (link < length self.old.links) × (length (slice_index_or self.old.queues link []) < 2) }
        requires unfinished { (d : TxSeen) → has_finish (put_on (lane_of self.old link d)) ≡ false }
        ensures links { self.new.links ≡ self.old.links }
        ensures put { self.new.queues ≡ slice_set self.old.queues link (slice_index_or self.old.queues link [] ++ frame ∷ []) }
        ensures holds { ShuffleHolds self.new.links self.new.queues }
    {
        put_at(&mut self.queues, link as usize, frame);
    }

    /// Puts a frame on each of the first `links` links, on which fewer than two frames wait and the end was
    /// not put.
    pub fn put_all(&mut self, links: u32, frame: Frame)
        requires there { links ≤ length self.old.links }
        requires room { (k : ℕ) → k < links → length (slice_index_or self.old.queues k []) < 2 }
        requires unfinished { (k : ℕ) (d : TxSeen) → k < links → has_finish (put_on (lane_of self.old k d)) ≡ false }
        ensures links { self.new.links ≡ self.old.links }
        ensures put { (k : ℕ) → k < links → slice_index_or self.new.queues k [] ≡ slice_index_or self.old.queues k [] ++ frame ∷ [] }
        ensures others { (k : ℕ) → links ≤ k → slice_index_or self.new.queues k [] ≡ slice_index_or self.old.queues k [] }
        ensures holds { ShuffleHolds self.new.links self.new.queues }
    {
        put_to_all(&mut self.queues, links as usize, &frame);
    }

    /// How many frames wait.
    pub fn waiting(&self) -> u32
        ensures count { result ≡ sum_by length self.now.queues }
        ensures holds { ShuffleHolds self.now.links self.now.queues }
    {
        count_waiting(&self.queues)
    }

    /// Whether no frame waits, every byte of the frames offered has gone into its pipe, and no frame is held.
    pub fn settled(&self) -> bool
        ensures settled { result ≡ true → (k : ℕ) (d : TxSeen) → k < length self.now.links → IsSettled (lane_of self.now k d) }
        ensures not { result ≡ false → (k : ℕ) × (k < length self.now.links) × ((d : TxSeen) → ¬ (IsSettled (lane_of self.now k d))) }
        ensures holds { ShuffleHolds self.now.links self.now.queues }
    {
        'lanes: for i in 0..self.links.len() {
            if !settled_at(self.links.get(i), &self.queues[i as usize]) {
                return false;
            }
        }
        true
    }

    /// The links, with what waited for them dropped.
    pub fn into_links(self) -> LinkTxList<T, R>
        ensures links { result.items ≡ self.links }
        ensures holds { ShuffleHolds self.links self.queues }
    {
        let Shuffle { links, queues: _ } = self;
        links
    }

    /// The row of one link.
    pub fn row(&self, link: u32, from: u32, to: u32, taken: u64) -> LinkRow
        requires { link < length self.now.links }
        ensures { (d : TxSeen) → result ≡ row_of (slice_index_or self.now.links link d) from to taken }
    {
        self.links.get(link as u64).row(from, to, taken)
    }
}

// A frame is put behind those that wait for one link.
fn put_at(queues: &mut Vec<Queue>, i: usize, frame: Frame)
    requires { (i < length queues.old.items) × (length (slice_index_or queues.old.items i []) < 2) }
    ensures { queues.new.items ≡ slice_set queues.old.items i (slice_index_or queues.old.items i [] ++ frame ∷ []) }
{
    queues[i].push(frame);
}

// A frame is put behind those that wait for each of the first links.
fn put_to_all(queues: &mut Vec<Queue>, count: usize, frame: &Frame)
    requires there { count ≤ length queues.old.items }
    requires room { (k : ℕ) → k < count → length (slice_index_or queues.old.items k []) < 2 }
    ensures put { (k : ℕ) → k < count → slice_index_or queues.new.items k [] ≡ slice_index_or queues.old.items k [] ++ frame.now ∷ [] }
    ensures others { (k : ℕ) → count ≤ k → slice_index_or queues.new.items k [] ≡ slice_index_or queues.old.items k [] }
    ensures as_many { length queues.new.items ≡ length queues.old.items }
{
    'queues: for i in 0..count {
        put_at(queues, i, *frame);
    }
}

// Each link stands as a sending end does.
fn show_standing<T: NamedTx, R: NamedRx>(links: &LinkTxList<T, R>)
    ensures stand { (k : ℕ) (d : TxSeen) → k < length links.now.items → TxStands (slice_index_or links.now.items k d) }
{
    'standing: for i in 0..links.len() {
        let _ = links.get(i).held();
    }
}

// How many frames wait in all.
fn count_waiting(queues: &Vec<Queue>) -> u32
    requires { length queues.now.items ≤ 17 }
    ensures { result ≡ sum_by length queues.now.items }
{
    let mut total = 0;
    'queues: for queue in queues {
        total += queue.len();
    }
    total
}

// Whether a link has nothing more to do.
fn settled_at<T: NamedTx, R: NamedRx>(tx: &LinkTx<T, R>, queue: &Queue) -> bool
    ensures settled { result ≡ true → IsSettled (record { tx = tx.now; queue = queue.now }) }
    ensures not { result ≡ false → ¬ (IsSettled (record { tx = tx.now; queue = queue.now })) }
{
    queue.len() == 0 && tx.held() == 0 && tx.ready()
}

impl Shuffle<RingTx, RingRx> {
    /// Shows both ends of one link over rings every byte and every free place of its rings. The ends were
    /// made by one call of `ring_link`.
    pub fn beside(&mut self, link: u32, rx: &mut LinkRx<RingRx, RingTx>)
        requires there { link < length self.old.links }
        requires one { (d : TxSeen) → AreOneLink (slice_index_or self.old.links link d) rx.old }
        ensures links { (d : TxSeen) → self.new.links ≡ slice_set self.old.links link (slice_index_or self.new.links link d) }
        ensures queues { self.new.queues ≡ self.old.queues }
        ensures shows { (d : TxSeen) → Shows (slice_index_or self.old.links link d) (slice_index_or self.new.links link d) rx.old rx.new }
        ensures holds { ShuffleHolds self.new.links self.new.queues }
    {
        show_at(&mut self.links, link as u64, rx);
    }
}

// Both ends of one link are shown its rings.
fn show_at(links: &mut LinkTxList<RingTx, RingRx>, i: u64, rx: &mut LinkRx<RingRx, RingTx>)
    requires there { i < length links.old.items }
    requires one { (d : TxSeen) → AreOneLink (slice_index_or links.old.items i d) rx.old }
    ensures long { length links.new.items ≡ length links.old.items }
    ensures links { (d : TxSeen) → links.new.items ≡ slice_set links.old.items i (slice_index_or links.new.items i d) }
    ensures shows { (d : TxSeen) → Shows (slice_index_or links.old.items i d) (slice_index_or links.new.items i d) rx.old rx.new }
    ensures stands { (d : TxSeen) → TxStands (slice_index_or links.new.items i d) }
{
    let tx = links.get_mut(i);
    tx.beside(rx);
    let _ = tx.held();
}

// Whether a frame waits for some link.
fn some_wait(queues: &Vec<Queue>) -> bool
    ensures none { result ≡ false → (k : ℕ) → slice_index_or queues.now.items k [] ≡ [] }
    ensures some { result ≡ true → (k : ℕ) × (slice_index_or queues.now.items k [] ≢ []) }
{
    'queues: for queue in queues {
        if queue.len() > 0 {
            return true;
        }
    }
    false
}

// So many queues in which nothing waits.
fn empty_queues(alloc: Global, count: usize) -> Result<Vec<Queue>, OutOfMemory>
    ensures { IfOk result (λ queues. queues.items ≡ replicate count []) }
{
    let Ok(mut queues) = Vec::with_capacity(alloc, count) else {
        return Err(OutOfMemory);
    };
    for _ in 0..count {
        queues.push_reserved(Queue::new());
    }
    Ok(queues)
}

// One lane is polled, and the others are left alone.
fn poll_at<T: NamedTx, R: NamedRx>(
    links: &mut LinkTxList<T, R>,
    queues: &mut Vec<Queue>,
    i: u64,
    cut: u32,
) -> Result<Passed, LinkBad>
    requires there { (i < length links.old.items) × (i < length queues.old.items) }
    requires last { (d : TxSeen) → FinishIsLast (put_on (lane_at links.old.items queues.old.items i d)) }
    ensures changes { ChangesLane links.old.items links.new.items queues.old.items queues.new.items i }
    ensures all_put { (d : TxSeen) → put_on (lane_at links.new.items queues.new.items i d) ≡ put_on (lane_at links.old.items queues.old.items i d) }
    ensures stands { (d : TxSeen) → TxStands (slice_index_or links.new.items i d) }
    ensures fewer { length (slice_index_or queues.new.items i []) ≤ length (slice_index_or queues.old.items i []) }
    ensures polls { IfOk result (λ answer. (d : TxSeen) → LanePolls (lane_at links.old.items queues.old.items i d) (lane_at links.new.items queues.new.items i d) cut answer) }
    ensures fails { IfErr result (λ bad. (d : TxSeen) → LaneFails (lane_at links.old.items queues.old.items i d) (lane_at links.new.items queues.new.items i d) cut bad) }
{
    match poll_lane(links.get_mut(i), &mut queues[i as usize], cut) {
        Ok(passed) => Ok(passed),
        Err(bad) => Err(bad),
    }
}

// Bit i is set.
fn with_bit(word: u32, i: u32) -> u32
    requires { (i < 17) × (word < 2 ^ i) }
    ensures { result ≡ word + 2 ^ i }
{
    word + (1 << i)
}

// A lane's answer is noted behind those of the lanes before it.
fn note(needs: &mut Needs, i: u32, passed: &Passed)
    requires below { (i < 17) × (needs.old.credit < 2 ^ i) × (needs.old.room < 2 ^ i) }
    ensures credit { needs.new.credit ≡ needs.old.credit + (if is_credit passed.now.need then 2 ^ i else 0) }
    ensures room { needs.new.room ≡ needs.old.room + (if is_room passed.now.need then 2 ^ i else 0) }
    ensures moved { needs.new.moved ≡ needs.old.moved || nat_lt 0 passed.now.moved }
{
    match passed.need {
        Need::Nothing => {}
        Need::Credit => needs.credit = with_bit(needs.credit, i),
        Need::Room => needs.room = with_bit(needs.room, i),
    }
    needs.moved = needs.moved || passed.moved > 0;
}

// All lanes are polled, up to the first fault.
fn poll_all<T: NamedTx, R: NamedRx>(
    links: &mut LinkTxList<T, R>,
    queues: &mut Vec<Queue>,
    cut: u32,
    needs: &mut Needs,
) -> Result<(), ShuffleFault>
    requires { ShuffleHolds links.old.items queues.old.items }
    ensures holds { ShuffleHolds links.new.items queues.new.items }
    ensures as_many { length links.new.items ≡ length links.old.items }
    ensures all_put { (k : ℕ) (d : TxSeen) → put_on (lane_at links.new.items queues.new.items k d) ≡ put_on (lane_at links.old.items queues.old.items k d) }
    ensures polls { OnOk result ((answers : List Answer) × (length answers ≡ length links.old.items) × PollsLanes links.old.items links.new.items queues.old.items queues.new.items cut needs.new answers) }
    ensures fails { IfErr result (λ fault. FailsAt links.old.items links.new.items queues.old.items queues.new.items cut fault) }
    ensures unwritten { IfErr result (λ _. needs.new ≡ needs.old) }
{
    let mut found = Needs {
        credit: 0,
        room: 0,
        moved: false,
    };
    let mut answers: GhostList<Passed> = GhostList::new();
    'lanes: for i in 0..links.len() {
        let passed = match poll_at(links, queues, i, cut) {
            Ok(passed) => passed,
            Err(bad) => {
                return Err(ShuffleFault {
                    link: i as u32,
                    bad,
                });
            }
        };
        note(&mut found, i as u32, &passed);
        answers = answers.and(&passed);
    }
    *needs = found;
    Ok(())
}
