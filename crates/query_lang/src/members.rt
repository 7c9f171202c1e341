//! What the terms of a group read of its members.

ghost use Rattle.std.specs.Prelude.{◌≡◌, ◌==◌, ◌+◌, ◌≤◌, ◌<◌, ◌∷◌, Some, length, drop, slice_get, count_by, find, option_map, All};
ghost use Rattle.std.specs.List.{list_any};
ghost use Rattle.query_lang.specs.Expression.{VariableBelow};
ghost use Rattle.query_lang.specs.Groups.{read_of_members, value_in, values, is_of, least, greatest, different, span};

use crate::expression::Term;
use ds_base::{Summary, SummaryList};

/// What a term reads of a group's members.
pub(crate) fn read_of_members(members: &SummaryList, term: Term) -> Option<u128>
    requires some { 0 < length members.now.items }
    requires variable { All (λ s. VariableBelow (length s.vals) term) members.now.items }
    ensures { result ≡ read_of_members members.now.items term }
{
    match term {
        Term::Count => Some(u128::from(members.len())),
        Term::Span => Some(u128::from(span(members))),
        Term::Seen(capture) => Some(u128::from(seen(members, capture))),
        Term::First(variable) => Some(value_at(members, variable, 0)),
        Term::Last(variable) => Some(value_at(members, variable, members.len() - 1)),
        Term::Min(variable) => Some(least(members, variable)),
        Term::Max(variable) => Some(greatest(members, variable)),
        Term::Distinct(variable) => Some(u128::from(different(members, variable))),
        Term::At { capture, variable } => first_of(members, capture, variable),
        _ => None,
    }
}

// The member at `i`.
#[tactic(auto, using(ds_base::proofs::Places::drop_at))]
fn member(members: &SummaryList, i: u64) -> &Summary
    requires { i < length members.now.items }
    ensures member { slice_get members.now.items i ≡ Some result.now }
    ensures rest { drop i members.now.items ≡ result.now ∷ drop (i + 1) members.now.items }
{
    members.get(i)
}

// A member's value of a variable.
fn value_in(member: &Summary, variable: u32) -> u128
    requires { variable < length member.now.vals }
    ensures { result ≡ value_in variable member.now }
{
    member.vals.get(variable)
}

// The value of a variable in the member at `i`.
#[tactic(auto, using(crate::proofs::Places::value_is, crate::proofs::Places::values_at, ds_base::proofs::Places::all_at))]
fn value_at(members: &SummaryList, variable: u32, i: u64) -> u128
    requires place { i < length members.now.items }
    requires variable { All (λ s. variable < length s.vals) members.now.items }
    ensures value { slice_get (values variable members.now.items) i ≡ Some result }
    ensures rest { drop i (values variable members.now.items)
        ≡ result ∷ drop (i + 1) (values variable members.now.items) }
{
    value_in(member(members, i), variable)
}

// The last member's time minus the first's, in nanoseconds.
fn span(members: &SummaryList) -> u64
    requires { 0 < length members.now.items }
    ensures { span members.now.items ≡ Some result }
{
    let first = member(members, 0).at.time;
    let last = member(members, members.len() - 1).at.time;
    last.saturating_sub(first)
}

// How many members are of a capture.
fn seen(members: &SummaryList, capture: u32) -> u64
    ensures { result ≡ count_by (is_of capture) members.now.items }
{
    let mut count = 0;
    for i in 0..members.len() {
        if member(members, i).at.capture == capture {
            count += 1;
        }
    }
    count
}

// The least value of a variable.
fn least(members: &SummaryList, variable: u32) -> u128
    requires some { 0 < length members.now.items }
    requires variable { All (λ s. variable < length s.vals) members.now.items }
    ensures { least (values variable members.now.items) ≡ Some result }
{
    let mut best = value_at(members, variable, 0);
    for i in 1..members.len() {
        best = best.min(value_at(members, variable, i));
    }
    best
}

// The greatest value of a variable.
fn greatest(members: &SummaryList, variable: u32) -> u128
    requires some { 0 < length members.now.items }
    requires variable { All (λ s. variable < length s.vals) members.now.items }
    ensures { greatest (values variable members.now.items) ≡ Some result }
{
    let mut best = value_at(members, variable, 0);
    for i in 1..members.len() {
        best = best.max(value_at(members, variable, i));
    }
    best
}

// How many different values a variable has. Without memory each value is sought among those behind
// it, up to its next place: for many members with as many values that is quadratic.
fn different(members: &SummaryList, variable: u32) -> u64
    requires { All (λ s. variable < length s.vals) members.now.items }
    ensures { result ≡ different (values variable members.now.items) }
{
    let mut count = 0;
    for i in 0..members.len() {
        let value = value_at(members, variable, i);
        if !stands_from(members, variable, i + 1, value) {
            count += 1;
        }
    }
    count
}

// Whether a member from the place `start` on has this value of a variable.
fn stands_from(members: &SummaryList, variable: u32, start: u64, value: u128) -> bool
    requires place { start ≤ length members.now.items }
    requires variable { All (λ s. variable < length s.vals) members.now.items }
    ensures { result ≡ list_any (λ y. y == value) (drop start (values variable members.now.items)) }
{
    for i in start..members.len() {
        if value_at(members, variable, i) == value {
            return true;
        }
    }
    false
}

// The value of a variable in the first member of a capture, if there is one.
fn first_of(members: &SummaryList, capture: u32, variable: u32) -> Option<u128>
    requires { All (λ s. variable < length s.vals) members.now.items }
    ensures { result ≡ option_map (value_in variable) (find (is_of capture) members.now.items) }
{
    for i in 0..members.len() {
        let found = member(members, i);
        if found.at.capture == capture {
            return Some(value_in(found, variable));
        }
    }
    None
}
