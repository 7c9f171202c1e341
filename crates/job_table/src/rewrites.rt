//! The rows of a query for rewrites: two captures, and rules.

ghost use Rattle.std.specs.Prelude.{◌≡◌, ◌+◌, ◌≤◌, ◌<◌, ◌^◌, [], map, length, IfOk, OnOk, All};
ghost use Rattle.serde_json.specs.View.{view, items_view, members_view};
ghost use Rattle.job_values.specs.declared.member.Member.TheVariants as member;
ghost use Rattle.job_values.specs.Values.{no_stray};
ghost use Rattle.job_values.specs.Parsed.{shown};
ghost use Rattle.job_values.specs.Said.{Answers};
ghost use Rattle.job_table.specs.Question.{ruling_of, manner_of, Rewrites};
ghost use Rattle.job_table.specs.Limits.{Counts, IsRuling, IsManner, IsRow};
ghost use Rattle.job_table.specs.QueryTable.{from, to, way_named, members_by, rule_var, rule_how, rule_by, pair, both, row, rule_rows, manner, rule, rules};

use crate::kinds::Way;
use crate::rules::{element, known, listed, put};
use ds_base::NameList;
use job_values::{
    JobFault, JobWhat, Member, ReadJobFault, fault_at, list, needed, no_stray, object, text, wide,
};
use rewrite_judge::{How, PairList, Rule, RuleList};
use serde_json::{Map, Value};
use std::alloc::Global;

/// The capture before a rewrite.
pub(crate) fn from(value: &Value, captures: &NameList) -> Result<u32, JobFault>
    requires { length captures.now.items < 2 ^ 32 }
    ensures answer { result ≡ from (shown captures.now.items) (view value.now) }
    ensures within { IfOk result (λ n. n < length captures.now.items) }
{
    let found = needed(value, "from", Member::QueryFrom, 0)?;
    known(found, captures, Member::QueryFrom, 0)
}

/// The capture behind a rewrite.
pub(crate) fn to(value: &Value, captures: &NameList) -> Result<u32, JobFault>
    requires { length captures.now.items < 2 ^ 32 }
    ensures answer { result ≡ to (shown captures.now.items) (view value.now) }
    ensures within { IfOk result (λ n. n < length captures.now.items) }
{
    let found = needed(value, "to", Member::QueryTo, 0)?;
    known(found, captures, Member::QueryTo, 0)
}

/// The rules of a rewrite.
pub(crate) fn rules(
    alloc: Global,
    value: &Value,
    variables: &NameList,
) -> Result<RuleList, ReadJobFault>
    requires { length variables.now.items < 2 ^ 32 }
    ensures answer { Answers (λ rules. map ruling_of rules.items) (rules (shown variables.now.items) (view value.now)) result }
    ensures counts { IfOk result (λ rules. Counts 1 16 rules.items) }
    ensures rules { IfOk result (λ rules. All (λ rule. IsRuling (length variables.now.items) (ruling_of rule)) rules.items) }
{
    let found = needed(value, "rules", Member::QueryRules, 0)?;
    let list = listed(found, 1, 16, Member::QueryRules, 0)?;
    let mut rules = RuleList::new(alloc);
    for i in 0..list.len() {
        rule(alloc, element(list, i), variables, &mut rules)?;
    }
    Ok(rules)
}

// Puts the next rule at the end.
fn rule(
    alloc: Global,
    value: &Value,
    variables: &NameList,
    earlier: &mut RuleList,
) -> Result<(), ReadJobFault>
    requires few { length earlier.old.items < 16 }
    requires variables { length variables.now.items < 2 ^ 32 }
    ensures answer { Answers (λ _. map ruling_of earlier.new.items)
        (rule (shown variables.now.items) (map ruling_of earlier.old.items) (view value.now)) result }
    ensures length { OnOk result (length earlier.new.items ≡ length earlier.old.items + 1) }
    ensures rules { OnOk result (All (λ rule. IsRuling (length variables.now.items) (ruling_of rule)) earlier.old.items
        → All (λ rule. IsRuling (length variables.now.items) (ruling_of rule)) earlier.new.items) }
{
    let index = earlier.len() as u32;
    let members = object(value, Member::QueryRules, index)?;
    let way = rule_how(value, index)?;
    no_stray_by(way, members, index)?;
    let var = rule_var(value, variables, index)?;
    let how = manner(alloc, way, value, index)?;
    put(earlier, Rule { var, how })?;
    Ok(())
}

// Refuses a rule with a member that is not of its way.
fn no_stray_by(way: Way, members: &Map<String, Value>, index: u32) -> Result<(), JobFault>
    ensures { result ≡ no_stray member.QueryRules index (members_by way) (members_view members.now.entries) }
{
    match way {
        Way::Same => no_stray(members, &["var", "how"], Member::QueryRules, index),
        Way::Less => no_stray(members, &["var", "how", "by"], Member::QueryRules, index),
        Way::Table => no_stray(members, &["var", "how", "rows"], Member::QueryRules, index),
    }
}

// The variable of a rule.
fn rule_var(value: &Value, variables: &NameList, index: u32) -> Result<u32, JobFault>
    requires { length variables.now.items < 2 ^ 32 }
    ensures answer { result ≡ rule_var index (shown variables.now.items) (view value.now) }
    ensures within { IfOk result (λ n. n < length variables.now.items) }
{
    let found = needed(value, "var", Member::QueryRulesVar, index)?;
    known(found, variables, Member::QueryRulesVar, index)
}

// How a rule compares.
fn rule_how(value: &Value, index: u32) -> Result<Way, JobFault>
    ensures { result ≡ rule_how index (view value.now) }
{
    let found = needed(value, "how", Member::QueryRulesHow, index)?;
    let name = text(found, Member::QueryRulesHow, index)?;
    match way_named(name) {
        Some(way) => Ok(way),
        None => Err(fault_at(Member::QueryRulesHow, index, JobWhat::Unknown)),
    }
}

fn way_named(name: &str) -> Option<Way>
    ensures { result ≡ way_named name.now }
{
    match name {
        "same" => Some(Way::Same),
        "less" => Some(Way::Less),
        "table" => Some(Way::Table),
        _ => None,
    }
}

// What a rule asks for by its way.
fn manner(alloc: Global, way: Way, value: &Value, index: u32) -> Result<How, ReadJobFault>
    ensures answer { Answers manner_of (manner index way (view value.now)) result }
    ensures lawful { IfOk result (λ how. IsManner (manner_of how)) }
{
    match way {
        Way::Same => Ok(How::Same),
        Way::Less => {
            let by = rule_by(alloc, value, index)?;
            Ok(How::Less(by))
        }
        Way::Table => {
            let rows = rule_rows(alloc, value, index)?;
            Ok(How::Table(rows))
        }
    }
}

// By how much the value behind is less.
fn rule_by(alloc: Global, value: &Value, index: u32) -> Result<u128, ReadJobFault>
    ensures { Answers (λ n. n) (rule_by index (view value.now)) result }
{
    let found = needed(value, "by", Member::QueryRulesBy, index)?;
    wide(alloc, found, Member::QueryRulesBy, index)
}

// The rows of a table.
fn rule_rows(alloc: Global, value: &Value, index: u32) -> Result<PairList, ReadJobFault>
    ensures answer { Answers (λ rows. rows.items) (rule_rows index (view value.now)) result }
    ensures counts { IfOk result (λ rows. Counts 1 64 rows.items) }
    ensures rows { IfOk result (λ rows. All IsRow rows.items) }
{
    let found = needed(value, "rows", Member::QueryRulesRows, index)?;
    let list = listed(found, 1, 64, Member::QueryRulesRows, index)?;
    let mut rows = PairList::new(alloc);
    for i in 0..list.len() {
        row(alloc, element(list, i), &mut rows, index)?;
    }
    Ok(rows)
}

// Puts the next row at the end.
fn row(alloc: Global, value: &Value, earlier: &mut PairList, index: u32) -> Result<(), ReadJobFault>
    ensures answer { Answers (λ _. earlier.new.items) (row index earlier.old.items (view value.now)) result }
    ensures length { OnOk result (length earlier.new.items ≡ length earlier.old.items + 1) }
    ensures rows { OnOk result (All IsRow earlier.old.items → All IsRow earlier.new.items) }
{
    let parts = list(value, Member::QueryRulesRows, index)?;
    let pair = both(alloc, parts, index)?;
    put(earlier, pair)?;
    Ok(())
}

// The two numbers of a row.
fn both(alloc: Global, parts: &[Value], index: u32) -> Result<(u128, u128), ReadJobFault>
    ensures answer { Answers (λ pair. pair) (both index (items_view parts.now)) result }
    ensures row { IfOk result (λ pair. IsRow pair) }
{
    if parts.len() != 2 {
        let fault = fault_at(Member::QueryRulesRows, index, JobWhat::WrongKind);
        return Err(ReadJobFault::Bad(fault));
    }
    pair(alloc, &parts[0], &parts[1], index)
}

// Two wide numbers.
fn pair(
    alloc: Global,
    left: &Value,
    right: &Value,
    index: u32,
) -> Result<(u128, u128), ReadJobFault>
    ensures answer { Answers (λ pair. pair) (pair index (view left.now) (view right.now)) result }
    ensures row { IfOk result (λ pair. IsRow pair) }
{
    let left = wide(alloc, left, Member::QueryRulesRows, index)?;
    let right = wide(alloc, right, Member::QueryRulesRows, index)?;
    Ok((left, right))
}
