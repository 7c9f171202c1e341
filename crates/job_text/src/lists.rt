//! The lists of a job as values of JSON: captures, variables, the key.

ghost use Rattle.std.specs.Prelude.{◌≡◌, ◌<◌, ◌+◌, ◌∷◌, length, drop, slice_get, Some, IfOk, All};
ghost use Rattle.serde_json.specs.Data.{array};
ghost use Rattle.serde_json.specs.View.{view, items_of};
ghost use Rattle.job_values.specs.Parsed.{shown};
ghost use Rattle.job_table.specs.Question.{items_of as lists_of};
ghost use Rattle.job_text.specs.Parts.{both_of, list_of, name_at, named, plain_capture, clocked_capture, later_capture, capture_value, capture_values, field_value, var_value};

use ds_base::{KeyList, NameList};
use field_table::{FieldRef, print_field};
use job_table::{FieldList, InterfaceList, OffsetList, SkewList, TakeList};
use serde_json::{Value, json, push};
use std::alloc::{AllocError, Global};

/// The captures as a value, as a declaration of this version has them.
pub fn captures_value(
    alloc: Global,
    version: u32,
    names: &NameList,
    files: &NameList,
    offsets: &OffsetList,
    skews: &SkewList,
    interfaces: &InterfaceList,
) -> Result<Value, AllocError>
    requires files { length files.now.items ≡ length names.now.items }
    requires offsets { length offsets.now.items ≡ length names.now.items }
    requires skews { length skews.now.items ≡ length names.now.items }
    requires interfaces { length interfaces.now.items ≡ length names.now.items }
    ensures { IfOk result (λ v. view v ≡ array (items_of
        (capture_values version (shown names.now.items) (shown files.now.items) offsets.now.items skews.now.items interfaces.now.items))) }
{
    let mut list = Vec::new(alloc);
    for i in 0..names.len() {
        let name = nth(names, i);
        let file = nth(files, i);
        let capture = capture_value(
            alloc,
            version,
            name,
            file,
            nth_offset(offsets, i),
            nth_skew(skews, i),
            nth_interface(interfaces, i),
        )?;
        push(&mut list, capture)?;
    }
    Ok(Value::Array(list))
}

fn capture_value(
    alloc: Global,
    version: u32,
    name: &str,
    file: &str,
    offset: i64,
    skew: u64,
    interface: Option<u32>,
) -> Result<Value, AllocError>
    ensures { IfOk result (λ v. view v ≡ capture_value version name.now file.now offset skew interface) }
{
    match version {
        1 => plain_capture(alloc, name, file),
        _ => later_capture(alloc, name, file, offset, skew, interface),
    }
}

fn plain_capture(alloc: Global, name: &str, file: &str) -> Result<Value, AllocError>
    ensures { IfOk result (λ v. view v ≡ plain_capture name.now file.now) }
{
    json!(in alloc; {"file": file, "name": name})
}

fn later_capture(
    alloc: Global,
    name: &str,
    file: &str,
    offset: i64,
    skew: u64,
    interface: Option<u32>,
) -> Result<Value, AllocError>
    ensures { IfOk result (λ v. view v ≡ later_capture name.now file.now offset skew interface) }
{
    match interface {
        None => clocked_capture(alloc, name, file, offset, skew),
        Some(n) => interface_capture(alloc, name, file, offset, skew, n),
    }
}

fn interface_capture(
    alloc: Global,
    name: &str,
    file: &str,
    offset: i64,
    skew: u64,
    interface: u32,
) -> Result<Value, AllocError>
    ensures { IfOk result (λ v. view v ≡ later_capture name.now file.now offset skew (Some interface)) }
{
    json!(in alloc; {"file": file, "interface": interface, "name": name, "offset": offset, "skew": skew})
}

fn clocked_capture(
    alloc: Global,
    name: &str,
    file: &str,
    offset: i64,
    skew: u64,
) -> Result<Value, AllocError>
    ensures { IfOk result (λ v. view v ≡ clocked_capture name.now file.now offset skew) }
{
    json!(in alloc; {"file": file, "name": name, "offset": offset, "skew": skew})
}

// The offset of capture number `i`.
#[tactic(auto, using(ds_base::proofs::Places::drop_at))]
fn nth_offset(offsets: &OffsetList, i: u64) -> i64
    requires { i < length offsets.now.items }
    ensures { drop i offsets.now.items ≡ result ∷ drop (i + 1) offsets.now.items }
{
    *offsets.get(i)
}

// The skew of capture number `i`.
#[tactic(auto, using(ds_base::proofs::Places::drop_at))]
fn nth_skew(skews: &SkewList, i: u64) -> u64
    requires { i < length skews.now.items }
    ensures { drop i skews.now.items ≡ result ∷ drop (i + 1) skews.now.items }
{
    *skews.get(i)
}

// The interface of capture number `i`.
#[tactic(auto, using(ds_base::proofs::Places::drop_at))]
fn nth_interface(interfaces: &InterfaceList, i: u64) -> Option<u32>
    requires { i < length interfaces.now.items }
    ensures { drop i interfaces.now.items ≡ result ∷ drop (i + 1) interfaces.now.items }
{
    *interfaces.get(i)
}

/// The variables as a value: their names and their alternatives.
pub fn vars_value(alloc: Global, names: &NameList, takes: &TakeList) -> Result<Value, AllocError>
    requires { length takes.now.items ≡ length names.now.items }
    ensures { IfOk result (λ v. view v
        ≡ array (items_of (both_of var_value (shown names.now.items) (lists_of takes.now.items)))) }
{
    let mut list = Vec::new(alloc);
    for i in 0..names.len() {
        let var = var_value(alloc, nth(names, i), nth_take(takes, i))?;
        push(&mut list, var)?;
    }
    Ok(Value::Array(list))
}

fn var_value(alloc: Global, name: &str, take: &FieldList) -> Result<Value, AllocError>
    ensures { IfOk result (λ v. view v ≡ var_value name.now take.now.items) }
{
    let fields = take_value(alloc, take)?;
    json!(in alloc; {"name": name, "take": fields})
}

fn take_value(alloc: Global, take: &FieldList) -> Result<Value, AllocError>
    ensures { IfOk result (λ v. view v ≡ list_of field_value take.now.items) }
{
    let mut list = Vec::new(alloc);
    for i in 0..take.len() {
        let text = print_field(alloc, nth_field(take, i))?;
        push(&mut list, Value::String(text))?;
    }
    Ok(Value::Array(list))
}

// The alternative at `i`.
#[tactic(auto, using(ds_base::proofs::Places::drop_at))]
fn nth_field(take: &FieldList, i: u64) -> &FieldRef
    requires { i < length take.now.items }
    ensures { drop i take.now.items ≡ result.now ∷ drop (i + 1) take.now.items }
{
    take.get(i)
}

/// The key as a value: the names of its variables.
pub fn key_value(alloc: Global, vars: &NameList, key: &KeyList) -> Result<Value, AllocError>
    requires { All (λ v. v < length vars.now.items) key.now.items }
    ensures { IfOk result (λ v. view v ≡ list_of (named (shown vars.now.items)) key.now.items) }
{
    let mut list = Vec::new(alloc);
    for i in 0..key.len() {
        let name = Value::try_from_str(alloc, name(vars, nth_number(key, i)))?;
        push(&mut list, name)?;
    }
    Ok(Value::Array(list))
}

/// The name that has this number.
#[tactic(auto, using(crate::proofs::Printed::name_shown))]
pub(crate) fn name(names: &NameList, n: u32) -> &str
    requires { n < length names.now.items }
    ensures { result.now ≡ name_at (shown names.now.items) n }
{
    names.get(u64::from(n)).as_str()
}

/// Name number `i`.
#[tactic(auto, using(ds_base::proofs::Places::drop_at))]
pub(crate) fn nth(names: &NameList, i: u64) -> &str
    requires { i < length names.now.items }
    ensures { shown (drop i names.now.items) ≡ result.now ∷ shown (drop (i + 1) names.now.items) }
{
    names.get(i).as_str()
}

// The alternatives of variable number `i`.
#[tactic(auto, using(ds_base::proofs::Places::drop_at))]
fn nth_take(takes: &TakeList, i: u64) -> &FieldList
    requires { i < length takes.now.items }
    ensures { lists_of (drop i takes.now.items) ≡ result.now.items ∷ lists_of (drop (i + 1) takes.now.items) }
{
    takes.get(i)
}

// Number `i` of the key.
#[tactic(auto, using(ds_base::proofs::Places::drop_at))]
fn nth_number(key: &KeyList, i: u64) -> u32
    requires { i < length key.now.items }
    ensures rest { drop i key.now.items ≡ result ∷ drop (i + 1) key.now.items }
    ensures item { slice_get key.now.items i ≡ Some result }
{
    *key.get(i)
}
