//! The row of a summary: its words are put, and they are read.

ghost use Rattle.std.specs.Prelude.{ℕ, ◌≡◌, ◌<◌, ◌≤◌, ◌+◌, ◌*◌, ◌++◌, [], Some, length, slice_get};
ghost use Rattle.std.specs.Ordering.{nat_cmp};
ghost use Rattle.std.specs.Cmp.Lexicographic.{slice_cmp};
ghost use Rattle.std.specs.Vec.{vec_capacity, vec_len};
ghost use Rattle.ds_base.specs.Keys.{key_of};
ghost use Rattle.packed_summaries.specs.Packing.{row_len, words_for, words_in};
ghost use Rattle.packed_summaries.specs.Rows.{Fits, HasWidth, HaveWidths, row_of, rows, stamp_in, summary_in, value_in, value_words, values_in, values_words};

use crate::packing::{Column, Packing};
use ds_base::{Nums, Stamp, Summary};
use std::cmp::Ordering;

/// Puts the row of a summary behind the words, where there is room for it.
pub(crate) fn push_row(words: &mut Vec<u64>, packing: &Packing, s: &Summary)
    requires fits { Fits packing.now s.now }
    requires room { vec_len words.old + row_len packing.now.wide ≤ vec_capacity words.old }
    ensures { words.new.items ≡ words.old.items ++ row_of packing.now s.now }
{
    words.push_reserved(s.at.time);
    words.push_reserved((u64::from(s.at.capture) << 40) + s.at.number);
    push_values(words, packing, &s.vals);
}

/// Puts the words of the values of all variables.
fn push_values(words: &mut Vec<u64>, packing: &Packing, vals: &Nums)
    requires fit { HaveWidths packing.now.wide vals.now }
    requires room { vec_len words.old + words_in packing.now.wide ≤ vec_capacity words.old }
    ensures { words.new.items ≡ words.old.items ++ values_words packing.now.wide vals.now }
{
    for variable in 0..packing.variables() {
        let column = packing.column(variable);
        push_value(words, column.wide, vals.get(variable));
    }
}

/// Puts the words of a value.
fn push_value(words: &mut Vec<u64>, wide: bool, n: u128)
    requires fits { HasWidth wide n }
    requires room { vec_len words.old + words_for wide ≤ vec_capacity words.old }
    ensures pushed { words.new.items ≡ words.old.items ++ value_words wide n }
    ensures len { vec_len words.new ≡ vec_len words.old + words_for wide }
    ensures capacity { vec_capacity words.new ≡ vec_capacity words.old }
{
    if wide {
        words.push_reserved((n % (1 << 64)) as u64);
        words.push_reserved((n / (1 << 64)) as u64);
    } else {
        words.push_reserved(n as u64);
    }
}

/// Row `i` of `count` rows, of `stride` words each.
pub(crate) fn row_at(words: &[u64], stride: usize, count: u64, i: u64) -> &[u64]
    requires whole { length words.now ≡ count * stride }
    requires within { i < count }
    ensures value { slice_get (rows stride count words.now) i ≡ Some result.now }
    ensures len { length result.now ≡ stride }
{
    let from = i as usize * stride;
    &words[from..from + stride]
}

/// The stamp of a row.
pub(crate) fn stamp_in(row: &[u64]) -> Stamp
    requires { 2 ≤ length row.now }
    ensures { result ≡ stamp_in row.now }
{
    let place = row[1];
    Stamp {
        time: row[0],
        capture: (place >> 40) as u32,
        number: place % (1 << 40),
    }
}

/// The value in a column of a row.
pub(crate) fn value_in(row: &[u64], column: Column) -> u128
    requires { column.start + words_for column.wide ≤ length row.now }
    ensures { result ≡ value_in row.now column }
{
    let low = u128::from(row[column.start]);
    if column.wide {
        u128::from(row[column.start + 1]) * (1 << 64) + low
    } else {
        low
    }
}

/// The summary of a row.
pub(crate) fn summary_in(packing: &Packing, row: &[u64]) -> Summary
    requires { length row.now ≡ row_len packing.now.wide }
    ensures { result ≡ summary_in packing.now row.now }
{
    let at = stamp_in(row);
    let vals = values_in(packing, row);
    let key = key_of(packing, &vals);
    Summary { at, key, vals }
}

/// The values of all variables.
fn values_in(packing: &Packing, row: &[u64]) -> Nums
    requires { length row.now ≡ row_len packing.now.wide }
    ensures { result ≡ values_in packing.now.wide row.now }
{
    let mut vals = Nums::new();
    for variable in 0..packing.variables() {
        vals.push(value_in(row, packing.column(variable)));
    }
    vals
}

/// The values of the key's variables.
pub(crate) fn key_of(packing: &Packing, vals: &Nums) -> Nums
    requires { length vals.now ≡ length packing.now.wide }
    ensures { result ≡ key_of packing.now.key vals.now }
{
    let mut key = Nums::new();
    for k in 0..packing.key_len() {
        key.push(vals.get(packing.key_variable(k)));
    }
    key
}

/// The key of a row.
pub(crate) fn key_in(packing: &Packing, row: &[u64]) -> Nums
    requires { length row.now ≡ row_len packing.now.wide }
    ensures { result ≡ (summary_in packing.now row.now).key }
{
    let mut key = Nums::new();
    for k in 0..packing.key_len() {
        key.push(value_in(row, packing.column(packing.key_variable(k))));
    }
    key
}

/// The order of the keys of two rows.
pub(crate) fn compare_keys(packing: &Packing, first: &[u64], second: &[u64]) -> Ordering
    requires first { length first.now ≡ row_len packing.now.wide }
    requires second { length second.now ≡ row_len packing.now.wide }
    ensures { result ≡ slice_cmp nat_cmp (summary_in packing.now first.now).key (summary_in packing.now second.now).key }
{
    for k in 0..packing.key_len() {
        let column = packing.column(packing.key_variable(k));
        match value_in(first, column).cmp(&value_in(second, column)) {
            Ordering::Equal => {}
            other => return other,
        }
    }
    Ordering::Equal
}
