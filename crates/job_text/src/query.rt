//! The query of a job as a value of JSON.

ghost use Rattle.std.specs.Prelude.{◌≡◌, ◌==◌, ◌<◌, ◌≤◌, ◌+◌, ◌^◌, ◌∷◌, map, flat_map, length, drop, slice_get, Some, IfOk, All, string_bytes};
ghost use Rattle.std.specs.Int.{bit_at};
ghost use Rattle.serde_json.specs.Data.{string};
ghost use Rattle.serde_json.specs.View.{view};
ghost use Rattle.job_values.specs.Parsed.{shown};
ghost use Rattle.job_text.specs.Parts.{list_of, name_at, wide_value, loop_value, drop_value, set_names, step_word, pattern_text, pattern_value, path_value, test_value, row_value, same_value, less_value, table_value, ruling_value, rewrite_value, question_value};
ghost use Rattle.job_table.specs.Question.{question_of, ruling_of, manner_of};
ghost use Rattle.job_table.specs.Limits.{StepBelow, IsPattern, IsRuling, IsQuestion};

use crate::lists::{name, nth};
use ds_base::NameList;
use job_table::Query;
use path_judges::{Pattern, PatternList, Step};
use query_lang::Names;
use rewrite_judge::{How, PairList, Rule, RuleList};
use serde_json::{Value, json, push};
use std::alloc::{AllocError, Global};

/// The query as a value.
pub fn question_value(alloc: Global, names: &Names, query: &Query) -> Result<Value, AllocError>
    requires captures { length names.now.captures.items ≤ 64 }
    requires query { IsQuestion (shown names.now.vars.items) (shown names.now.captures.items) (question_of query.now) }
    ensures { IfOk result (λ v. view v
        ≡ question_value (shown names.now.vars.items) (shown names.now.captures.items) (question_of query.now)) }
{
    match query {
        Query::All => json!(in alloc; {"kind": "all"}),
        Query::Loop { hop } => loop_value(alloc, &names.vars, *hop),
        Query::Exits { set } => drop_value(alloc, &names.captures, *set),
        Query::Path { allow } => path_value(alloc, &names.captures, allow),
        Query::Rewrite { from, to, rules } => rewrite_value(alloc, names, *from, *to, rules),
        Query::Test { text, expr: _ } => test_value(alloc, text.as_str()),
    }
}

fn loop_value(alloc: Global, vars: &NameList, hop: u32) -> Result<Value, AllocError>
    requires { hop < length vars.now.items }
    ensures { IfOk result (λ v. view v ≡ loop_value (shown vars.now.items) hop) }
{
    let hop = name(vars, hop);
    json!(in alloc; {"hop": hop, "kind": "loop"})
}

fn drop_value(alloc: Global, captures: &NameList, exits: u64) -> Result<Value, AllocError>
    requires { length captures.now.items ≤ 64 }
    ensures { IfOk result (λ v. view v ≡ drop_value (shown captures.now.items) exits) }
{
    let names = exits_value(alloc, captures, exits)?;
    json!(in alloc; {"exits": names, "kind": "drop"})
}

// The names of the captures whose bit is set, rising.
fn exits_value(alloc: Global, captures: &NameList, exits: u64) -> Result<Value, AllocError>
    requires { length captures.now.items ≤ 64 }
    ensures { IfOk result (λ v. view v ≡ list_of string (set_names exits 0 (shown captures.now.items))) }
{
    let mut list = Vec::new(alloc);
    for i in 0..captures.len() {
        let name = nth(captures, i);
        if has_bit(exits, i) {
            let exit = Value::try_from_str(alloc, name)?;
            push(&mut list, exit)?;
        }
    }
    Ok(Value::Array(list))
}

fn has_bit(set: u64, i: u64) -> bool
    requires { i < 64 }
    ensures { result ≡ (bit_at set i == 1) }
{
    (set >> i) & 1 == 1
}

fn path_value(alloc: Global, captures: &NameList, allow: &PatternList) -> Result<Value, AllocError>
    requires { All (IsPattern (length captures.now.items)) allow.now.items }
    ensures { IfOk result (λ v. view v ≡ path_value (shown captures.now.items) allow.now.items) }
{
    let patterns = patterns_value(alloc, captures, allow)?;
    json!(in alloc; {"allow": patterns, "kind": "path"})
}

fn patterns_value(
    alloc: Global,
    captures: &NameList,
    allow: &PatternList,
) -> Result<Value, AllocError>
    requires { All (IsPattern (length captures.now.items)) allow.now.items }
    ensures { IfOk result (λ v. view v ≡ list_of (pattern_value (shown captures.now.items)) allow.now.items) }
{
    let mut list = Vec::new(alloc);
    for i in 0..allow.len() {
        let text = pattern_text(alloc, captures, nth_pattern(allow, i))?;
        push(&mut list, Value::String(text))?;
    }
    Ok(Value::Array(list))
}

// Pattern number `i`.
#[tactic(auto, using(ds_base::proofs::Places::drop_at))]
fn nth_pattern(allow: &PatternList, i: u64) -> &Pattern
    requires { i < length allow.now.items }
    ensures rest { drop i allow.now.items ≡ result.now ∷ drop (i + 1) allow.now.items }
    ensures item { slice_get allow.now.items i ≡ Some result.now }
{
    allow.get(i)
}

// The words of a pattern.
fn pattern_text(alloc: Global, captures: &NameList, pattern: &Pattern) -> Result<String, AllocError>
    requires { IsPattern (length captures.now.items) pattern.now }
    ensures { IfOk result (λ text. string_bytes text ≡ pattern_text (shown captures.now.items) pattern.now) }
{
    let mut text = String::from_str(alloc, step_word(captures, nth_step(pattern, 0)))?;
    for i in 1..pattern.len() {
        text.push_str(" ")?;
        text.push_str(step_word(captures, nth_step(pattern, i)))?;
    }
    Ok(text)
}

// Step number `i`.
#[tactic(auto, using(ds_base::proofs::Places::drop_at))]
fn nth_step(pattern: &Pattern, i: u32) -> Step
    requires { i < length pattern.now }
    ensures rest { drop i pattern.now ≡ result ∷ drop (i + 1) pattern.now }
    ensures item { slice_get pattern.now i ≡ Some result }
{
    pattern.get(i)
}

// The word of a step.
fn step_word(captures: &NameList, step: Step) -> &str
    requires { StepBelow (length captures.now.items) step }
    ensures { result.now ≡ step_word (shown captures.now.items) step }
{
    match step {
        Step::Point(capture) => name(captures, capture),
        Step::One => "?",
        Step::Many => "*",
    }
}

fn rewrite_value(
    alloc: Global,
    names: &Names,
    from: u32,
    to: u32,
    rules: &RuleList,
) -> Result<Value, AllocError>
    requires from { from < length names.now.captures.items }
    requires to { to < length names.now.captures.items }
    requires rules { All (IsRuling (length names.now.vars.items)) (map ruling_of rules.now.items) }
    ensures { IfOk result (λ v. view v ≡ rewrite_value (shown names.now.vars.items) (shown names.now.captures.items)
        from to (map ruling_of rules.now.items)) }
{
    let rules = rules_value(alloc, &names.vars, rules)?;
    let from = name(&names.captures, from);
    let to = name(&names.captures, to);
    json!(in alloc; {"from": from, "kind": "rewrite", "rules": rules, "to": to})
}

fn rules_value(alloc: Global, vars: &NameList, rules: &RuleList) -> Result<Value, AllocError>
    requires { All (IsRuling (length vars.now.items)) (map ruling_of rules.now.items) }
    ensures { IfOk result (λ v. view v ≡ list_of (ruling_value (shown vars.now.items)) (map ruling_of rules.now.items)) }
{
    let mut list = Vec::new(alloc);
    for i in 0..rules.len() {
        let rule = rule_value(alloc, vars, nth_rule(rules, i))?;
        push(&mut list, rule)?;
    }
    Ok(Value::Array(list))
}

// Rule number `i`.
#[tactic(auto, using(ds_base::proofs::Places::drop_at, crate::proofs::Printed::ruling_at))]
fn nth_rule(rules: &RuleList, i: u64) -> &Rule
    requires { i < length rules.now.items }
    ensures rest { map ruling_of (drop i rules.now.items) ≡ ruling_of result.now ∷ map ruling_of (drop (i + 1) rules.now.items) }
    ensures item { slice_get (map ruling_of rules.now.items) i ≡ Some (ruling_of result.now) }
{
    rules.get(i)
}

fn rule_value(alloc: Global, vars: &NameList, rule: &Rule) -> Result<Value, AllocError>
    requires { IsRuling (length vars.now.items) (ruling_of rule.now) }
    ensures { IfOk result (λ v. view v ≡ ruling_value (shown vars.now.items) (ruling_of rule.now)) }
{
    let var = name(vars, rule.var);
    match &rule.how {
        How::Same => same_value(alloc, var),
        How::Less(by) => less_value(alloc, *by, var),
        How::Table(rows) => table_value(alloc, rows, var),
    }
}

fn same_value(alloc: Global, var: &str) -> Result<Value, AllocError>
    ensures { IfOk result (λ v. view v ≡ same_value var.now) }
{
    json!(in alloc; {"how": "same", "var": var})
}

fn less_value(alloc: Global, by: u128, var: &str) -> Result<Value, AllocError>
    ensures { IfOk result (λ v. view v ≡ less_value by var.now) }
{
    let by = wide_value(alloc, by)?;
    json!(in alloc; {"by": by, "how": "less", "var": var})
}

fn table_value(alloc: Global, rows: &PairList, var: &str) -> Result<Value, AllocError>
    ensures { IfOk result (λ v. view v ≡ table_value rows.now.items var.now) }
{
    let rows = rows_value(alloc, rows)?;
    json!(in alloc; {"how": "table", "rows": rows, "var": var})
}

fn rows_value(alloc: Global, rows: &PairList) -> Result<Value, AllocError>
    ensures { IfOk result (λ v. view v ≡ list_of row_value rows.now.items) }
{
    let mut list = Vec::new(alloc);
    for i in 0..rows.len() {
        let row = row_value(alloc, nth_row(rows, i))?;
        push(&mut list, row)?;
    }
    Ok(Value::Array(list))
}

// Row number `i`.
#[tactic(auto, using(ds_base::proofs::Places::drop_at))]
fn nth_row(rows: &PairList, i: u64) -> (u128, u128)
    requires { i < length rows.now.items }
    ensures { drop i rows.now.items ≡ result ∷ drop (i + 1) rows.now.items }
{
    *rows.get(i)
}

fn row_value(alloc: Global, row: (u128, u128)) -> Result<Value, AllocError>
    ensures { IfOk result (λ v. view v ≡ row_value row) }
{
    let left = wide_value(alloc, row.0)?;
    let right = wide_value(alloc, row.1)?;
    json!(in alloc; [left, right])
}

// A number, or from 2^64 on its digits as a text.
fn wide_value(alloc: Global, n: u128) -> Result<Value, AllocError>
    ensures { IfOk result (λ v. view v ≡ wide_value n) }
{
    if n < 1 << 64 {
        return Ok(Value::from(n as u64));
    }
    let digits = format!(in alloc; "{n}")?;
    Ok(Value::String(digits))
}

fn test_value(alloc: Global, text: &str) -> Result<Value, AllocError>
    ensures { IfOk result (λ v. view v ≡ test_value text.now) }
{
    json!(in alloc; {"expr": text, "kind": "test"})
}
