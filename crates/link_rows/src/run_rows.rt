//! The rows that a run hands out.
ghost use Rattle.std.specs.Prelude.{◌≡◌, ◌<◌, ◌≤◌, ℕ, [], false, true, All, length, slice_index_or};
ghost use Rattle.credit_link.specs.declared.row.LinkRow.{LinkRow as RowSeen};

use credit_link::{LinkRow, LinkRows};
use ds_base::ItemList;
use std::alloc::Global;
use std::marker::Model;

/// The rows of all links of a run, one a link in the order of the links' numbers, and whether the run came to its end.
/// Contracts see the rows and this truth. Where it is done, a frame at least was sent on each link: so much is true of
/// every such value, which only the nodes of a pipeline can make.
#[derive(Drop)]
pub struct RunRows {
    /// At most 544: those of 16 nodes of each kind.
    pub(crate) rows: LinkRows,
    pub(crate) done: bool,
}

impl Model for RunRows {
    ghost use Rattle.link_rows.specs.Rows.{RowsSeen, RowsHold};

    ghost Value = { RowsSeen };

    ghost view = { λ r. record { rows = r.rows.items; done = r.done } };

    ghost invariant = { λ r. RowsHold r.rows.items r.done };
}

impl RunRows {
    /// No row, of a run that is not done. It takes no memory.
    pub fn new(alloc: Global) -> Self
        ensures none { result.rows ≡ [] }
        ensures not_done { result.done ≡ false }
    {
        RunRows {
            rows: ItemList::new(alloc),
            done: false,
        }
    }

    /// How many rows there are.
    pub fn len(&self) -> u32
        ensures { result ≡ length self.now.rows }
    {
        self.rows.len() as u32
    }

    /// The row of the link of this number.
    pub fn row(&self, i: u32) -> LinkRow
        requires { i < length self.now.rows }
        ensures row { (d : RowSeen) → result ≡ slice_index_or self.now.rows i d }
        ensures some { self.now.done ≡ true → 1 ≤ result.sent }
    {
        *self.rows.get(i as u64)
    }

    /// Whether the run came to its end.
    pub fn done(&self) -> bool
        ensures done { result ≡ self.now.done }
        ensures some { result ≡ true → All (λ (row : RowSeen). 1 ≤ row.sent) self.now.rows }
    {
        self.done
    }
}
