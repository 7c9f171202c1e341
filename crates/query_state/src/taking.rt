//! The group that is being taken on one link.
ghost use Rattle.std.specs.Prelude.{◌≡◌, ◌<◌, [], OnOk, OnErr};
ghost use Rattle.ds_base.specs.Copies.{copies_of};
ghost use Rattle.run_law.specs.Sent.{with_member};
ghost use Rattle.query_state.specs.Takings.{new_taking, begun_taking, copies_taken};

use ds_base::{Group, ItemList, Nums, OutOfMemory, Stamp, Summary};
use std::alloc::Global;
use std::marker::Model;

/// The group whose head came last on a link, with the members that came so far, in room that the next
/// group uses again. Contracts see it as one that has begun; it is whole where no member is left.
#[derive(Drop)]
pub(crate) struct Taking {
    /// The first member's stamp, as the head told it.
    first: Stamp,
    /// How many members are still to come.
    left: u64,
    group: Group,
}

impl Model for Taking {
    ghost use Rattle.run_law.specs.Sent.{Begun};

    ghost Value = { Begun };

    ghost view = { λ t. record { first = t.first; key = t.group.key; members = t.group.members.items; left = t.left } };
}

impl Taking {
    /// No group came yet. It takes no memory.
    pub(crate) fn new(alloc: Global) -> Self
        ensures { result ≡ new_taking }
    {
        Taking {
            first: Stamp {
                time: 0,
                capture: 0,
                number: 0,
            },
            left: 0,
            group: Group {
                key: Nums::new(),
                members: ItemList::new(alloc),
            },
        }
    }

    /// A group begins, and the one before it is forgotten.
    pub(crate) fn begin(&mut self, first: Stamp, members: u64, key: Nums)
        ensures { self.new ≡ begun_taking first members key }
    {
        self.first = first;
        self.left = members;
        self.group.key = key;
        clear(&mut self.group.members);
    }

    /// The next member. It is refused for want of memory alone.
    pub(crate) fn add(&mut self, at: Stamp, vals: Nums) -> Result<(), OutOfMemory>
        requires { 0 < self.old.left }
        ensures added { OnOk result (self.new ≡ with_member at vals self.old) }
        ensures refused { OnErr result (self.new ≡ self.old) }
    {
        let key = self.group.key;
        match self.group.members.push(Summary { at, key, vals }) {
            Ok(()) => {
                self.left -= 1;
                Ok(())
            }
            Err(_) => Err(OutOfMemory),
        }
    }

    /// How many members are still to come.
    pub(crate) fn left(&self) -> u64
        ensures { result ≡ self.now.left }
    {
        self.left
    }

    /// The group with the members that came.
    pub(crate) fn group(&self) -> &Group
        ensures { copies_of result.now ≡ copies_taken self.now }
    {
        &self.group
    }
}

// Takes all members out, and keeps their room.
fn clear(members: &mut ItemList<Summary>)
    ensures { members.new.items ≡ [] }
{
    'members: while let Some(_) = members.pop() {}
}
