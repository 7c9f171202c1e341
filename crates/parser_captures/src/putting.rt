//! What a parser puts on its links.
ghost use Rattle.std.specs.Prelude.{◌≡◌, ◌<◌, ◌≤◌, ◌+◌, ◌∷◌, ◌++◌, [], ℕ, false, length, slice_index_or};
ghost use Rattle.credit_link.specs.Frames.{is_finish};
ghost use Rattle.shuffle_poll.specs.Shuffles.{ShuffleHolds};
ghost use Rattle.node_lanes.specs.Ends.{put_on};
ghost use Rattle.parser_captures.specs.Puts.{IsEmpty, IsUnfinished, frames_for};

use credit_link::{NamedRx, NamedTx};
use ds_base::Summary;
use key_select::shard;
use node_frames::Frame;
use shuffle_poll::Shuffle;

/// Puts the summary that was found for the grouper of its shard.
pub fn put_found<T: NamedTx, R: NamedRx>(
    out: &mut Shuffle<T, R>,
    groupers: u32,
    found: Option<Summary>,
)
    requires groupers { (0 < groupers) × (length out.old.links ≡ groupers + 1) }
    requires holds { ShuffleHolds out.old.links out.old.queues }
    requires none { IsEmpty out.old }
    requires unfinished { IsUnfinished out.old }
    ensures links { out.new.links ≡ out.old.links }
    ensures put { (k : ℕ) → put_on out.new k ≡ put_on out.old k ++ frames_for groupers k found }
    ensures few { (k : ℕ) → length (slice_index_or out.new.queues k []) ≤ 1 }
    ensures unfinished { IsUnfinished out.new }
{
    let Some(summary) = found else {
        return;
    };
    let grouper = shard(&summary.key, groupers);
    out.put(grouper, Frame::Item(summary));
}

/// Puts a frame that is no end on every link to a grouper.
pub fn put_to_groupers<T: NamedTx, R: NamedRx>(out: &mut Shuffle<T, R>, groupers: u32, frame: Frame)
    requires groupers { length out.old.links ≡ groupers + 1 }
    requires holds { ShuffleHolds out.old.links out.old.queues }
    requires few { (k : ℕ) → length (slice_index_or out.old.queues k []) ≤ 1 }
    requires unfinished { IsUnfinished out.old }
    requires goes_on { is_finish frame ≡ false }
    ensures links { out.new.links ≡ out.old.links }
    ensures put { (k : ℕ) → k < groupers → put_on out.new k ≡ put_on out.old k ++ frame ∷ [] }
    ensures merge { put_on out.new groupers ≡ put_on out.old groupers }
    ensures unfinished { IsUnfinished out.new }
{
    out.put_all(groupers, frame);
}
