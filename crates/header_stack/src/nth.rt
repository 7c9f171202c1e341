//! The n-th header of a kind, from outside or from inside.

ghost use Rattle.std.specs.Prelude.{◌≡◌, reverse, slice_get};
ghost use Rattle.header_stack.specs.Nth.{is_kind, of_kind};

use crate::place::Place;
use field_table::Kind;

// The header of this kind that is so many steps from the first of its kind.
pub(crate) fn from_outside(places: &[Place], kind: Kind, steps: u8) -> Option<Place>
    ensures { result ≡ slice_get (of_kind (λ place. place.kind) kind places.now) steps }
{
    places
        .iter()
        .filter(|place| same_kind(place.kind, kind))
        .nth(steps as usize)
        .copied()
}

// The header of this kind that is so many steps from the last of its kind.
pub(crate) fn from_inside(places: &[Place], kind: Kind, steps: u8) -> Option<Place>
    ensures { result ≡ slice_get (of_kind (λ place. place.kind) kind (reverse places.now)) steps }
{
    places
        .iter()
        .rev()
        .filter(|place| same_kind(place.kind, kind))
        .nth(steps as usize)
        .copied()
}

// Whether two kinds are the same.
#[tactic(auto, unfolding(crate::specs::Nth::is_kind))]
fn same_kind(a: Kind, b: Kind) -> bool
    ensures { result ≡ is_kind a b }
{
    a == b
}
