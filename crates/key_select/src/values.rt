//! The values of the variables, and the key.
ghost use Rattle.std.specs.Prelude.{◌≡◌, ◌≤◌, ◌<◌, ◌+◌, ◌++◌, ◌∷◌, [], length, drop, if◌then◌else◌, Some, None, true};
ghost use Rattle.std.specs.List.{All};
ghost use Rattle.header_stack.specs.Places.{LiesIn, layers_at};
ghost use Rattle.summary_spec.specs.Declaration.{items_of};
ghost use Rattle.ds_base.specs.Keys.{key_of};
ghost use Rattle.key_select.specs.Sum.{first_defined, values_of};

use ds_base::{KeyList, Nums};
use field_table::FieldRef;
use header_stack::{Stack, field_value};
use summary_spec::{FieldList, TakeList};

/// Puts the value of each variable into `vals`, which is empty. False exactly where a variable has none.
pub(crate) fn put_values(vals: &mut Nums, takes: &TakeList, stack: &Stack, bytes: &[u8]) -> bool
    requires few { length takes.now.items ≤ 16 }
    requires none { vals.old ≡ [] }
    requires inside { All (LiesIn bytes.now) stack.now }
    ensures values { values_of (items_of takes.now.items) (layers_at bytes.now stack.now) ≡ (if result then Some vals.new else None) }
    ensures filled { result ≡ true → length vals.new ≡ length takes.now.items }
{
    for i in 0..takes.len() {
        match first_defined(alternatives(takes, i), stack, bytes) {
            Some(n) => vals.push(n),
            None => return false,
        }
    }
    true
}

/// Puts the values of the key's variables into `key`, which is empty.
pub(crate) fn put_key(key: &mut Nums, variables: &KeyList, vals: &Nums)
    requires few { length variables.now.items ≤ 16 }
    requires none { key.old ≡ [] }
    requires known { All (λ v. v < length vals.now) variables.now.items }
    ensures { key.new ≡ key_of variables.now.items vals.now }
{
    for i in 0..variables.len() {
        key.push(key_value(variables, i, vals));
    }
}

/// The value of the first of these fields that the packet has.
fn first_defined(fields: &FieldList, stack: &Stack, bytes: &[u8]) -> Option<u128>
    requires { All (LiesIn bytes.now) stack.now }
    ensures { result ≡ first_defined fields.now.items (layers_at bytes.now stack.now) }
{
    for i in 0..fields.len() {
        if let Some(n) = field_value(stack, bytes, alternative(fields, i)) {
            return Some(n);
        }
    }
    None
}

/// The alternatives of variable `i`.
#[tactic(auto, using(ds_base::proofs::Places::drop_at))]
fn alternatives(takes: &TakeList, i: u64) -> &FieldList
    requires { i < length takes.now.items }
    ensures { drop i takes.now.items ≡ result.now ∷ drop (i + 1) takes.now.items }
{
    takes.get(i)
}

/// Field `i` of these.
#[tactic(auto, using(ds_base::proofs::Places::drop_at))]
fn alternative(fields: &FieldList, i: u64) -> &FieldRef
    requires { i < length fields.now.items }
    ensures { drop i fields.now.items ≡ result.now ∷ drop (i + 1) fields.now.items }
{
    fields.get(i)
}

/// The value of variable `i` of the key.
fn key_value(variables: &KeyList, i: u64, vals: &Nums) -> u128
    requires within { i < length variables.now.items }
    requires known { All (λ v. v < length vals.now) variables.now.items }
    ensures { key_of (drop i variables.now.items) vals.now ≡ result ∷ key_of (drop (i + 1) variables.now.items) vals.now }
{
    let variable = *variables.get(i);
    vals.get(variable)
}
