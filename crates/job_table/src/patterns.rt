//! The rows of a query for paths: patterns of captures.

ghost use Rattle.std.specs.Prelude.{◌≡◌, ◌+◌, ◌≤◌, ◌<◌, ◌^◌, [], length, IfOk, IfSome, OnOk, All, take, drop};
ghost use Rattle.std.specs.List.{position_or_len};
ghost use Rattle.job_values.specs.declared.member.Member.TheVariants as member;
ghost use Rattle.job_values.specs.declared.fault.JobWhat.TheVariants as what;
ghost use Rattle.serde_json.specs.View.{view};
ghost use Rattle.job_values.specs.Parsed.{shown};
ghost use Rattle.job_values.specs.Said.{Answers, or_fault};
ghost use Rattle.job_table.specs.Limits.{Counts, IsPattern, StepBelow};
ghost use Rattle.job_table.specs.QueryTable.{allow, pattern, steps};
ghost use Rattle.job_table.specs.Words.{is_blank, step_of, words};

use crate::rules::{element, in_limits, listed, number_of, put};
use ds_base::NameList;
use job_values::{JobFault, JobWhat, Member, ReadJobFault, fault_at, needed, text};
use path_judges::{Pattern, PatternList, Step};
use serde_json::Value;
use std::alloc::Global;

/// The patterns of the paths that are allowed.
pub(crate) fn allow(
    alloc: Global,
    value: &Value,
    captures: &NameList,
) -> Result<PatternList, ReadJobFault>
    requires { length captures.now.items < 2 ^ 32 }
    ensures answer { Answers (λ patterns. patterns.items) (allow (shown captures.now.items) (view value.now)) result }
    ensures counts { IfOk result (λ patterns. Counts 1 16 patterns.items) }
    ensures patterns { IfOk result (λ patterns. All (IsPattern (length captures.now.items)) patterns.items) }
{
    let found = needed(value, "allow", Member::QueryAllow, 0)?;
    let list = listed(found, 1, 16, Member::QueryAllow, 0)?;
    let mut patterns = PatternList::new(alloc);
    for i in 0..list.len() {
        pattern(element(list, i), captures, &mut patterns)?;
    }
    Ok(patterns)
}

// Puts the next pattern at the end.
fn pattern(
    value: &Value,
    captures: &NameList,
    earlier: &mut PatternList,
) -> Result<(), ReadJobFault>
    requires few { length earlier.old.items < 16 }
    requires captures { length captures.now.items < 2 ^ 32 }
    ensures answer { Answers (λ _. earlier.new.items)
        (pattern (shown captures.now.items) earlier.old.items (view value.now)) result }
    ensures length { OnOk result (length earlier.new.items ≡ length earlier.old.items + 1) }
    ensures patterns { OnOk result (All (IsPattern (length captures.now.items)) earlier.old.items
        → All (IsPattern (length captures.now.items)) earlier.new.items) }
{
    let index = earlier.len() as u32;
    let given = text(value, Member::QueryAllow, index)?.as_bytes();
    in_limits(count_words(given), 1, 32, Member::QueryAllow, index)?;
    let path = steps(given, captures, index)?;
    put(earlier, path)?;
    Ok(())
}

// How many words there are.
#[tactic(auto, using(crate::proofs::PatternWords::words_skip, crate::proofs::PatternWords::words_word))]
fn count_words(text: &[u8]) -> u64
    ensures { result ≡ length (words text.now) }
{
    let mut rest = text;
    let mut count: u64 = 0;
    while !rest.is_empty() {
        let end = word_end(rest);
        if end == 0 {
            rest = behind(rest, end);
            continue;
        }
        count += 1;
        rest = behind(rest, end);
    }
    count
}

// The steps that the words stand for, or the fault that one is unknown.
#[tactic(auto, using(crate::proofs::PatternWords::words_skip, crate::proofs::PatternWords::words_word))]
fn steps(text: &[u8], captures: &NameList, index: u32) -> Result<Pattern, JobFault>
    requires few { length (words text.now) ≤ 32 }
    requires captures { length captures.now.items < 2 ^ 32 }
    ensures answer { result ≡ steps index (shown captures.now.items) [] (words text.now) }
    ensures length { IfOk result (λ path. length path ≡ length (words text.now)) }
    ensures steps { IfOk result (λ path. All (StepBelow (length captures.now.items)) path) }
{
    let mut rest = text;
    let mut path = Pattern::new();
    while !rest.is_empty() {
        let end = word_end(rest);
        if end == 0 {
            rest = behind(rest, end);
            continue;
        }
        let step = known_step(word(rest, end), captures, index)?;
        path.push(step);
        rest = behind(rest, end);
    }
    Ok(path)
}

// The step that a word stands for, or the fault that it is unknown.
fn known_step(word: &[u8], captures: &NameList, index: u32) -> Result<Step, JobFault>
    requires captures { length captures.now.items < 2 ^ 32 }
    ensures answer { result ≡ or_fault member.QueryAllow index what.Unknown (step_of (shown captures.now.items) word.now) }
    ensures below { IfOk result (λ step. StepBelow (length captures.now.items) step) }
{
    match step_of(word, captures) {
        Some(step) => Ok(step),
        None => Err(fault_at(Member::QueryAllow, index, JobWhat::Unknown)),
    }
}

// The step that a word stands for.
fn step_of(word: &[u8], captures: &NameList) -> Option<Step>
    requires captures { length captures.now.items < 2 ^ 32 }
    ensures answer { result ≡ step_of (shown captures.now.items) word.now }
    ensures below { IfSome result (λ step. StepBelow (length captures.now.items) step) }
{
    if word == "?".as_bytes() {
        return Some(Step::One);
    }
    if word == "*".as_bytes() {
        return Some(Step::Many);
    }
    let capture = number_of(captures, word)?;
    Some(Step::Point(capture))
}

// Where the first word ends: the place of the first blank, or the length.
fn word_end(bytes: &[u8]) -> usize
    ensures end { result ≡ position_or_len is_blank bytes.now }
    ensures within { result ≤ length bytes.now }
{
    for (i, byte) in bytes.iter().enumerate() {
        if is_blank(*byte) {
            return i;
        }
    }
    bytes.len()
}

fn is_blank(byte: u8) -> bool
    ensures { result ≡ is_blank byte }
{
    byte == b' ' || byte == b'\t'
}

// The first so many bytes.
fn word(bytes: &[u8], end: usize) -> &[u8]
    requires { end ≤ length bytes.now }
    ensures { result.now ≡ take end bytes.now }
{
    &bytes[..end]
}

// What stands behind the byte at `end`.
fn behind(bytes: &[u8], end: usize) -> &[u8]
    requires { end ≤ length bytes.now }
    ensures { result.now ≡ drop (end + 1) bytes.now }
{
    if end == bytes.len() {
        return &bytes[end..];
    }
    &bytes[end + 1..]
}
