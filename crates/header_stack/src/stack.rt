//! The places of a packet's headers.

ghost use Rattle.std.specs.Prelude.{◌≡◌, ◌≤◌, ◌<◌, ◌↔◌, [], ◌∷◌, ◌++◌, length, IsTrue, Some, IfSome, Contains, slice_get};
ghost use Rattle.header_stack.specs.Nth.{nth_of};

use crate::nth::{from_inside, from_outside};
use crate::place::Place;
use field_table::{FieldRef, Kind};
use std::marker::Model;

/// The places of a packet's headers, from the outside inwards: at most 16.
#[derive(Debug, Drop)]
pub struct Stack {
    // how many of the places are used
    len: u32,
    places: [Place; 16],
}

impl Model for Stack {
    ghost use Rattle.std.specs.Prelude.{List, ◌≡◌, ◌≤◌, take, length};
    ghost use Rattle.header_stack.specs.declared.place.Place.{Place};

    ghost Value = { List Place };

    ghost view = { λ s. take s.len s.places };

    ghost invariant = { λ s. (s.len ≤ 16) × (length s.places ≡ 16) };
}

impl Stack {
    // No places.
    pub(crate) fn new() -> Stack
        ensures { result ≡ [] }
    {
        let none = Place {
            kind: Kind::Eth,
            from: 0,
            to: 0,
        };
        Stack {
            len: 0,
            places: [none; 16],
        }
    }

    /// How many headers there are, at most 16.
    pub fn len(&self) -> u32
        ensures count { result ≡ length self.now }
        ensures few { result ≤ 16 }
    {
        self.len
    }

    /// Whether there is no header.
    pub fn is_empty(&self) -> bool
        ensures { IsTrue result ↔ (self.now ≡ []) }
    {
        self.len == 0
    }

    /// The place of the header with this number, from 0 at the outside.
    pub fn place(&self, i: u32) -> Place
        requires { i < length self.now }
        ensures { slice_get self.now i ≡ Some result }
    {
        self.places[i as usize]
    }

    /// The place of the header that a field is looked for in: the one of its kind that has as many of
    /// them before it as `f` says, counted from the outside or from the inside.
    ///
    /// `None` where there are too few of that kind.
    pub fn nth(&self, f: &FieldRef) -> Option<Place>
        ensures nth { result ≡ nth_of (λ place. place.kind) f.now self.now }
        ensures among { IfSome result (Contains self.now) }
    {
        let places = &self.places[..self.len as usize];
        if f.inside {
            from_inside(places, f.kind, f.steps)
        } else {
            from_outside(places, f.kind, f.steps)
        }
    }

    // Puts a place after the others.
    pub(crate) fn push(&mut self, place: Place)
        requires { length self.old < 16 }
        ensures { self.new ≡ self.old ++ place ∷ [] }
    {
        self.places[self.len as usize] = place;
        self.len += 1;
    }
}
