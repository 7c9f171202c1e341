//! What is known of a pcapng file at a place where a block begins.
ghost use Rattle.std.specs.Prelude.{◌≡◌, ◌+◌, ◌-◌, ◌≤◌, ◌<◌, ◌^◌, ◌++◌, ◌∷◌, [], length, slice_get, IfSome, Some, OnErr, OnOk, Option, option_map};
ghost use Rattle.pcapng_reader.specs.State.{start};
ghost use Rattle.pcapng_reader.specs.Packets.{interfaces_after};
ghost use Rattle.pcapng_reader.specs.Times.{latest};

use crate::interface::Interface;
use crate::packet::Found;
use capture_bytes::Endian;
use ds_base::{ItemList, OutOfMemory};
use std::alloc::Global;
use std::marker::Model;

/// What is known of a pcapng file at a place where a block begins.
#[derive(Drop)]
pub(crate) struct State {
    /// How many bytes stand before the place.
    place: u64,
    /// How many packet blocks stand before it.
    packets: u64,
    /// The order of bytes of the section. None: no section has begun.
    order: Option<Endian>,
    /// The interfaces that the section has so far.
    interfaces: ItemList<Interface>,
}

impl Model for State {
    ghost use Rattle.std.specs.Prelude.{◌<◌};
    ghost use Rattle.std.specs.List.{All};
    ghost use Rattle.pcapng_reader.specs.State.{Known};
    ghost use Rattle.pcapng_reader.specs.Times.{latest};

    ghost Value = { Known };

    ghost view = { λ s. record { state = record { place = s.place; packets = s.packets; order = s.order; interfaces = s.interfaces.items }; spare = s.interfaces.spare } };

    ghost invariant = { λ s. All (λ i. i.newest < latest) s.interfaces.items };
}

impl State {
    /// The front of a file. It takes no memory.
    pub(crate) fn new(alloc: Global) -> Self
        ensures { result.state ≡ start }
    {
        State {
            place: 0,
            packets: 0,
            order: None,
            interfaces: ItemList::new(alloc),
        }
    }

    /// How many bytes stand before the place.
    pub(crate) fn place(&self) -> u64
        ensures { result ≡ self.now.state.place }
    {
        self.place
    }

    /// How many packet blocks stand before it.
    pub(crate) fn packets(&self) -> u64
        ensures { result ≡ self.now.state.packets }
    {
        self.packets
    }

    /// The order of bytes of the section.
    pub(crate) fn order(&self) -> Option<Endian>
        ensures { result ≡ self.now.state.order }
    {
        self.order
    }

    /// The interface of this number in the section, where it was described.
    pub(crate) fn interface(&self, id: u32) -> Option<Interface>
        ensures value { result ≡ slice_get self.now.state.interfaces id }
        ensures newest { IfSome result (λ i. i.newest < latest) }
    {
        let id = u64::from(id);
        if id < self.interfaces.len() {
            Some(*self.interfaces.get(id))
        } else {
            None
        }
    }

    /// Makes room for `more` interfaces.
    pub(crate) fn reserve(&mut self, more: u64) -> Result<(), OutOfMemory>
        ensures state { self.new.state ≡ self.old.state }
        ensures room { OnOk result (more ≤ self.new.spare) }
        ensures spare { self.old.spare ≤ self.new.spare }
    {
        self.interfaces.reserve(more)
    }

    /// Goes past a block of this length that tells nothing.
    pub(crate) fn pass(&mut self, len: u32)
        requires { self.old.state.place < 2 ^ 62 }
        ensures state { self.new.state ≡ record { place = self.old.state.place + len; packets = self.old.state.packets; order = self.old.state.order; interfaces = self.old.state.interfaces } }
        ensures spare { self.new.spare ≡ self.old.spare }
    {
        self.place += u64::from(len);
    }

    /// Goes past a section block of this length: a section begins, which has no interface yet.
    pub(crate) fn begin_section(&mut self, len: u32, order: Endian)
        requires { self.old.state.place < 2 ^ 62 }
        ensures state { self.new.state ≡ record { place = self.old.state.place + len; packets = self.old.state.packets; order = Some order; interfaces = [] } }
        ensures spare { self.old.spare ≤ self.new.spare }
    {
        clear(&mut self.interfaces);
        self.place += u64::from(len);
        self.order = Some(order);
    }

    /// Goes past an interface block of this length: the section has one interface more.
    pub(crate) fn add_interface(&mut self, len: u32, interface: Interface)
        requires { (self.old.state.place < 2 ^ 62) × (0 < self.old.spare) × (interface.newest < latest) }
        ensures state { self.new.state ≡ record { place = self.old.state.place + len; packets = self.old.state.packets; order = self.old.state.order; interfaces = self.old.state.interfaces ++ interface ∷ [] } }
        ensures spare { self.old.spare ≤ self.new.spare + 1 }
    {
        // There is room, so that nothing is refused.
        if let Ok(()) = self.interfaces.push(interface) {}
        self.place += u64::from(len);
    }

    /// Goes past a packet block of this length: its packet is the last of its interface.
    pub(crate) fn add_packet(&mut self, len: u32, found: &Found)
        requires { (self.old.state.place < 2 ^ 62) × (self.old.state.packets < 2 ^ 40) × (found.now.time < latest) }
        ensures state { self.new.state ≡ record { place = self.old.state.place + len; packets = self.old.state.packets + 1; order = self.old.state.order; interfaces = interfaces_after self.old.state.interfaces found.now (slice_get self.old.state.interfaces found.now.interface) } }
        ensures spare { self.old.spare ≤ self.new.spare }
    {
        let id = u64::from(found.interface);
        if id < self.interfaces.len() {
            self.interfaces.get_mut(id).newest = found.time;
        }
        self.place += u64::from(len);
        self.packets += 1;
    }
}

/// Takes all interfaces out of a list.
fn clear(interfaces: &mut ItemList<Interface>)
    ensures items { interfaces.new.items ≡ [] }
    ensures spare { interfaces.old.spare ≤ interfaces.new.spare }
{
    'all: while !interfaces.is_empty() {
        interfaces.pop();
    }
}
