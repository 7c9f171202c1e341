//! The rows of the links of one layer of nodes after another, put into a list that has room for them.
ghost use Rattle.std.specs.Prelude.{◌≡◌, ◌<◌, ◌≤◌, ◌+◌, ◌*◌, ◌∷◌, ℕ, [], length};
ghost use Rattle.pipeline_law.specs.Rows.{ends_at, row_between, rows_across, rows_into, rows_out};
ghost use Rattle.link_rows.specs.Reading.{PutsBehind};

use crate::ends::{SendsFrames, TakesFrames};
use credit_link::{LinkRow, LinkRows};
use ds_base::ItemList;

/// The rows from each of `senders` to each of `receivers`, of which the first have the numbers `from` and `to`.
pub(crate) fn push_across<A: SendsFrames, B: TakesFrames>(
    senders: &ItemList<A>,
    receivers: &ItemList<B>,
    from: u32,
    to: u32,
    rows: &mut LinkRows,
)
    requires few { (length senders.now.items ≤ 16) × (length receivers.now.items ≤ 16) × (from ≤ 48) × (to ≤ 48) }
    requires outs { (i : ℕ) → i < length senders.now.items → length receivers.now.items ≤ length (ends_at A.outs senders.now.items i) }
    requires ins { (j : ℕ) → j < length receivers.now.items → length senders.now.items ≤ length (ends_at B.ins receivers.now.items j) }
    requires room { length senders.now.items * length receivers.now.items ≤ rows.old.spare }
    ensures { PutsBehind rows.old rows.new (rows_across (length senders.now.items) (ends_at A.outs senders.now.items) (length receivers.now.items) (ends_at B.ins receivers.now.items) from to) }
{
    'senders: for i in 0..senders.len() {
        push_out(
            senders.get(i),
            i as u32,
            receivers,
            from + i as u32,
            to,
            rows,
        );
    }
}

/// The rows from each of `senders`, by its link out of number `link`, to one receiver, whose links in from them begin at
/// number `first`.
pub(crate) fn push_into<A: SendsFrames, B: TakesFrames>(
    senders: &ItemList<A>,
    link: u32,
    receiver: &B,
    first: u32,
    from: u32,
    to: u32,
    rows: &mut LinkRows,
)
    requires few { (length senders.now.items ≤ 16) × (first ≤ 48) × (from ≤ 48) }
    requires outs { (i : ℕ) → i < length senders.now.items → link < length (ends_at A.outs senders.now.items i) }
    requires ins { first + length senders.now.items ≤ length (B.ins receiver.now) }
    requires room { length senders.now.items ≤ rows.old.spare }
    ensures { PutsBehind rows.old rows.new (rows_into (length senders.now.items) (ends_at A.outs senders.now.items) link (B.ins receiver.now) first from to) }
{
    'senders: for i in 0..senders.len() {
        let j = i as u32;
        push_one(
            senders.get(i),
            link,
            receiver,
            first + j,
            from + j,
            to,
            rows,
        );
    }
}

// The rows from one sender to each of `receivers`, whose links in from it have the number `i`.
fn push_out<A: SendsFrames, B: TakesFrames>(
    sender: &A,
    i: u32,
    receivers: &ItemList<B>,
    from: u32,
    to: u32,
    rows: &mut LinkRows,
)
    requires few { (length receivers.now.items ≤ 16) × (to ≤ 48) }
    requires outs { length receivers.now.items ≤ length (A.outs sender.now) }
    requires ins { (j : ℕ) → j < length receivers.now.items → i < length (ends_at B.ins receivers.now.items j) }
    requires room { length receivers.now.items ≤ rows.old.spare }
    ensures { PutsBehind rows.old rows.new (rows_out (A.outs sender.now) i (length receivers.now.items) (ends_at B.ins receivers.now.items) from to) }
{
    'receivers: for j in 0..receivers.len() {
        push_one(
            sender,
            j as u32,
            receivers.get(j),
            i,
            from,
            to + j as u32,
            rows,
        );
    }
}

// The row of one link: the sender's of number `k` out, and the receiver's of number `j` in.
fn push_one<A: SendsFrames, B: TakesFrames>(
    sender: &A,
    k: u32,
    receiver: &B,
    j: u32,
    from: u32,
    to: u32,
    rows: &mut LinkRows,
)
    requires there { (k < length (A.outs sender.now)) × (j < length (B.ins receiver.now)) }
    requires room { 0 < rows.old.spare }
    ensures { PutsBehind rows.old rows.new (row_between (A.outs sender.now) k (B.ins receiver.now) j from to ∷ []) }
{
    let taken = receiver.taken_in(j);
    push_row(rows, sender.row_out(k, from, to, taken));
}

// Puts a row into a list that has room for it.
fn push_row(rows: &mut LinkRows, row: LinkRow)
    requires { 0 < rows.old.spare }
    ensures { PutsBehind rows.old rows.new (row ∷ []) }
{
    match rows.push(row) {
        Ok(()) => {}
        Err(_) => unreachable!(),
    }
}
