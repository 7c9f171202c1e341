//! The rows of names that stand for numbers: the key, and the exits of a query for losses.

ghost use Rattle.std.specs.Prelude.{◌≡◌, ◌==◌, bit_or, ◌+◌, ◌≤◌, ◌<◌, ◌^◌, ◌∷◌, [], length, drop, slice_get, Some, IfOk, OnOk, All};
ghost use Rattle.std.specs.List.{list_any};
ghost use Rattle.serde_json.specs.View.{view, items_view};
ghost use Rattle.job_values.specs.Parsed.{shown};
ghost use Rattle.job_values.specs.Said.{Answers};
ghost use Rattle.job_values.specs.Values.{each};
ghost use Rattle.job_table.specs.QueryTable.{set_of, exits};
ghost use Rattle.job_table.specs.Table.{another, key};

use crate::rules::{element, known, listed, put};
use ds_base::{KeyList, NameList};
use job_values::{JobWhat, Member, ReadJobFault, fault_at, needed};
use serde_json::Value;
use std::alloc::Global;

/// The numbers of the variables of the key.
pub fn key(alloc: Global, value: &Value, variables: &NameList) -> Result<KeyList, ReadJobFault>
    requires { length variables.now.items < 2 ^ 32 }
    ensures answer { Answers (λ key. key.items) (key (shown variables.now.items) (view value.now)) result }
    ensures counts { IfOk result (λ key. (1 ≤ length key.items) × (length key.items ≤ 16)) }
    ensures within { IfOk result (λ key. All (λ v. v < length variables.now.items) key.items) }
{
    let found = needed(value, "key", Member::Key, 0)?;
    let list = listed(found, 1, 16, Member::Key, 0)?;
    others(alloc, list, variables, Member::Key)
}

/// The exits, each as one bit.
pub(crate) fn exits(alloc: Global, value: &Value, captures: &NameList) -> Result<u64, ReadJobFault>
    requires { length captures.now.items ≤ 64 }
    ensures answer { Answers (λ set. set) (exits (shown captures.now.items) (view value.now)) result }
    ensures some { IfOk result (λ set. 0 < set) }
    ensures within { IfOk result (λ set. set < 2 ^ length captures.now.items) }
{
    let found = needed(value, "exits", Member::QueryExits, 0)?;
    let list = listed(found, 1, 64, Member::QueryExits, 0)?;
    let numbers = others(alloc, list, captures, Member::QueryExits)?;
    Ok(set_of(&numbers, captures.len()))
}

// The numbers of the names in a list, each another one.
fn others(
    alloc: Global,
    list: &Vec<Value>,
    names: &NameList,
    member: Member,
) -> Result<KeyList, ReadJobFault>
    requires few { length list.now.items ≤ 64 }
    requires names { length names.now.items < 2 ^ 32 }
    ensures answer { Answers (λ numbers. numbers.items)
        (each (another member (shown names.now.items)) [] (items_view list.now.items)) result }
    ensures length { IfOk result (λ numbers. length numbers.items ≡ length list.now.items) }
    ensures within { IfOk result (λ numbers. All (λ n. n < length names.now.items) numbers.items) }
{
    let mut numbers = KeyList::new(alloc);
    for i in 0..list.len() {
        another(element(list, i), names, member, &mut numbers)?;
    }
    Ok(numbers)
}

// Puts the number of the next name at the end, where it is another one.
fn another(
    value: &Value,
    names: &NameList,
    member: Member,
    earlier: &mut KeyList,
) -> Result<(), ReadJobFault>
    requires few { length earlier.old.items < 64 }
    requires names { length names.now.items < 2 ^ 32 }
    ensures answer { Answers (λ _. earlier.new.items)
        (another member (shown names.now.items) earlier.old.items (view value.now)) result }
    ensures length { OnOk result (length earlier.new.items ≡ length earlier.old.items + 1) }
    ensures within { OnOk result (All (λ n. n < length names.now.items) earlier.old.items
        → All (λ n. n < length names.now.items) earlier.new.items) }
{
    let index = earlier.len() as u32;
    let n = known(value, names, member, index)?;
    if has(earlier, n) {
        return Err(ReadJobFault::Bad(fault_at(member, index, JobWhat::Twice)));
    }
    put(earlier, n)?;
    Ok(())
}

// Whether a number stands in a list.
fn has(numbers: &KeyList, n: u32) -> bool
    ensures { result ≡ list_any (λ m. m == n) numbers.now.items }
{
    for i in 0..numbers.len() {
        if nth(numbers, i) == n {
            return true;
        }
    }
    false
}

// Number `i` of a list.
#[tactic(auto, using(ds_base::proofs::Places::drop_at))]
fn nth(numbers: &KeyList, i: u64) -> u32
    requires { i < length numbers.now.items }
    ensures rest { drop i numbers.now.items ≡ result ∷ drop (i + 1) numbers.now.items }
    ensures item { slice_get numbers.now.items i ≡ Some result }
{
    *numbers.get(i)
}

// The set of these numbers below `most`, each as one bit.
fn set_of(numbers: &KeyList, most: u64) -> u64
    requires some { 0 < length numbers.now.items }
    requires most { most ≤ 64 }
    requires below { All (λ n. n < most) numbers.now.items }
    ensures answer { result ≡ set_of numbers.now.items }
    ensures some { 0 < result }
    ensures within { result < 2 ^ most }
{
    let mut set: u64 = 0;
    for i in 0..numbers.len() {
        set = with_bit(set, nth(numbers, i), most);
    }
    set
}

// The set with one number more.
#[tactic(auto, using(crate::proofs::Bits::bit_within, crate::proofs::Bits::bit_some))]
fn with_bit(set: u64, n: u32, most: u64) -> u64
    requires most { most ≤ 64 }
    requires n { n < most }
    requires set { set < 2 ^ most }
    ensures answer { result ≡ bit_or set (2 ^ n) }
    ensures some { 0 < result }
    ensures within { result < 2 ^ most }
{
    set | bit(n)
}

// Bit `n` alone.
fn bit(n: u32) -> u64
    requires { n < 64 }
    ensures { result ≡ 2 ^ n }
{
    1 << n
}
