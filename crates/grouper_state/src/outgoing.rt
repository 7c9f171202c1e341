//! The group that is being sent.
ghost use Rattle.std.specs.Prelude.{◌≡◌, ◌<◌, ◌==◌, length};
ghost use Rattle.ds_base.specs.Copies.{copies_of};
ghost use Rattle.grouper_state.specs.Outgoing.{IsNextMember, head_of, no_outgoing, one_further, whole_outgoing};

use ds_base::{Group, ItemList, Nums};
use node_frames::Frame;
use std::alloc::Global;
use std::marker::Model;

/// The group of which the head was put last, and how many of its members were put. Once these are all of
/// its members, no group is being sent; the memory of the members is given back when the next one begins.
#[derive(Drop)]
pub(crate) struct Going {
    group: Group,
    /// How many members were put.
    next: u64,
}

impl Model for Going {
    ghost use Rattle.std.specs.Prelude.{◌≤◌, length};
    ghost use Rattle.ds_base.specs.Copies.{copies_of};
    ghost use Rattle.grouper_state.specs.Outgoing.{Outgoing};

    ghost Value = { Outgoing };

    ghost view = { λ g. record { group = copies_of g.group; next = g.next } };

    ghost invariant = { λ g. g.next ≤ length g.group.members.items };
}

impl Going {
    /// No group is being sent. It takes no memory.
    pub(crate) fn none(alloc: Global) -> Self
        ensures { result ≡ no_outgoing }
    {
        Going {
            group: Group {
                key: Nums::new(),
                members: ItemList::new(alloc),
            },
            next: 0,
        }
    }

    /// A group of which no member was put.
    pub(crate) fn new(group: Group) -> Self
        ensures { result ≡ whole_outgoing (copies_of group) }
    {
        Going { group, next: 0 }
    }

    /// Whether all members were put.
    pub(crate) fn is_over(&self) -> bool
        ensures { result ≡ (self.now.next == length self.now.group.members) }
    {
        self.next == self.group.members.len()
    }

    /// The group's head.
    pub(crate) fn head(&self) -> Frame
        requires { 0 < length self.now.group.members }
        ensures { result ≡ head_of self.now.group }
    {
        Frame::GroupHead {
            first: self.group.members.get(0).at,
            members: self.group.members.len(),
            key: self.group.key,
        }
    }

    /// The next member, which is put then.
    pub(crate) fn next_member(&mut self) -> Frame
        requires { self.old.next < length self.old.group.members }
        ensures frame { IsNextMember self.old result }
        ensures further { self.new ≡ one_further self.old }
    {
        let _ = self.group.members.len();
        let member = self.group.members.get(self.next);
        let frame = Frame::Member {
            at: member.at,
            vals: member.vals,
        };
        self.next += 1;
        frame
    }
}
