//! What several rows have: limits, lists, names, texts.

ghost use Rattle.std.specs.Prelude.{◌≡◌, ◌+◌, ◌<◌, ◌≤◌, ◌^◌, ◌∷◌, ◌++◌, [], length, drop, OnOk, IfOk, IfSome, slice_index, ◌&&◌};
ghost use Rattle.std.specs.List.{list_all, list_any};
ghost use Rattle.std.specs.Result.{result_map_both};
ghost use Rattle.query_tokens.specs.Words.{begins_word, is_word_byte};
ghost use Rattle.serde_json.specs.Data.{item};
ghost use Rattle.serde_json.specs.View.{view, items_view};
ghost use Rattle.job_values.specs.Parsed.{shown};
ghost use Rattle.job_values.specs.Said.{within};
ghost use Rattle.job_table.specs.Table.{listed, known};
ghost use Rattle.job_table.specs.Words.{is_identifier, is_among, number_of};

use ds_base::{ItemList, NameList, OutOfMemory, Text};
use job_values::{JobFault, JobWhat, Member, fault_at, list, text};
use query_tokens::{begins_word, is_word_byte};
use serde_json::Value;
use std::alloc::Global;

/// A number that is to be in its limits.
pub(crate) fn in_limits(
    n: u64,
    least: u64,
    most: u64,
    member: Member,
    index: u32,
) -> Result<u64, JobFault>
    ensures answer { result ≡ within member index least most n n }
    ensures most { IfOk result (λ m. (least ≤ m) × (m ≤ most)) }
{
    if n < least || n > most {
        let value = u128::from(n);
        return Err(fault_at(member, index, JobWhat::Limit { value }));
    }
    Ok(n)
}

/// The list that a value is, of so many elements.
#[tactic(auto, using(crate::proofs::Elements::length_shown))]
pub(crate) fn listed(
    value: &Value,
    least: u64,
    most: u64,
    member: Member,
    index: u32,
) -> Result<&Vec<Value>, JobFault>
    ensures answer { result_map_both (λ list. items_view list.now.items) (λ fault. fault) result
        ≡ listed member index least most (view value.now) }
    ensures length { IfOk result (λ list. (least ≤ length list.now.items) × (length list.now.items ≤ most)) }
{
    let found = list(value, member, index)?;
    in_limits(found.len() as u64, least, most, member, index)?;
    Ok(found)
}

/// Element `i` of a list.
#[tactic(auto, using(crate::proofs::Elements::element_at))]
pub(crate) fn element(list: &Vec<Value>, i: usize) -> &Value
    requires { i < length list.now.items }
    ensures { items_view (drop i list.now.items) ≡ item (view result.now) (items_view (drop (i + 1) list.now.items)) }
{
    &list[i]
}

/// The number of the variable or capture that a value names.
pub(crate) fn known(
    value: &Value,
    names: &NameList,
    member: Member,
    index: u32,
) -> Result<u32, JobFault>
    requires { length names.now.items < 2 ^ 32 }
    ensures answer { result ≡ known member index (shown names.now.items) (view value.now) }
    ensures within { IfOk result (λ n. n < length names.now.items) }
{
    let name = text(value, member, index)?;
    match number_of(names, name.as_bytes()) {
        Some(n) => Ok(n),
        None => Err(fault_at(member, index, JobWhat::Unknown)),
    }
}

/// The number of a name.
pub(crate) fn number_of(names: &NameList, name: &[u8]) -> Option<u32>
    requires { length names.now.items < 2 ^ 32 }
    ensures answer { result ≡ number_of (shown names.now.items) name.now }
    ensures within { IfSome result (λ n. n < length names.now.items) }
{
    for i in 0..names.len() {
        if nth(names, i).as_str().as_bytes() == name {
            return Some(i as u32);
        }
    }
    None
}

/// Whether a name is one of these.
pub(crate) fn is_among(names: &NameList, name: &str) -> bool
    ensures { result ≡ is_among (shown names.now.items) name.now }
{
    for i in 0..names.len() {
        if nth(names, i).as_str() == name {
            return true;
        }
    }
    false
}

// Name number `i`.
#[tactic(auto, using(ds_base::proofs::Places::drop_at))]
fn nth(names: &NameList, i: u64) -> &Text
    requires { i < length names.now.items }
    ensures { drop i names.now.items ≡ result.now ∷ drop (i + 1) names.now.items }
{
    names.get(i)
}

/// Whether a name is 1 to 32 letters, digits and `_`, of which the first is no digit.
pub(crate) fn is_identifier(name: &str) -> bool
    ensures { result ≡ is_identifier name.now }
{
    let bytes = name.as_bytes();
    bytes.len() >= 1 && bytes.len() <= 32 && begins_with_word(bytes) && is_word(bytes)
}

fn begins_with_word(bytes: &[u8]) -> bool
    ensures { result ≡ begins_word (slice_index bytes.now 0) }
{
    !bytes.is_empty() && begins_word(bytes[0])
}

fn is_word(bytes: &[u8]) -> bool
    ensures { result ≡ list_all is_word_byte bytes.now }
{
    bytes.iter().all(|b| is_word_byte(*b))
}

/// A copy of a text.
pub fn copied(alloc: Global, text: &str) -> Result<Text, OutOfMemory>
    ensures { IfOk result (λ copy. copy.items ≡ text.now) }
{
    let mut copy = Text::new(alloc);
    copy.push_str(text)?;
    Ok(copy)
}

/// Puts an item at the end of a list.
pub fn put<T: Drop>(list: &mut ItemList<T>, item: T) -> Result<(), OutOfMemory>
    ensures { OnOk result (list.new.items ≡ list.old.items ++ item ∷ []) }
{
    match list.push(item) {
        Ok(()) => Ok(()),
        Err(_) => Err(OutOfMemory),
    }
}
