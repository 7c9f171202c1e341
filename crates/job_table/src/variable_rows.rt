//! The rows of variables: a name and its alternatives each.

ghost use Rattle.std.specs.Prelude.{◌≡◌, ◌+◌, ◌≤◌, ◌<◌, ◌^◌, [], length, IfOk, OnOk, All};
ghost use Rattle.std.specs.Result.{result_map_both};
ghost use Rattle.serde_json.specs.View.{view};
ghost use Rattle.job_values.specs.Parsed.{shown};
ghost use Rattle.job_values.specs.Said.{Answers};
ghost use Rattle.job_table.specs.Question.{items_of};
ghost use Rattle.job_table.specs.Limits.{Counts};
ghost use Rattle.job_table.specs.Table.{is_free, var_name, field, var_take, var, vars};

use crate::rules::{copied, element, is_among, is_identifier, listed, put};
use crate::takes::{FieldList, TakeList};
use ds_base::NameList;
use job_values::{
    JobFault, JobWhat, Member, ReadJobFault, fault_at, field_in, needed, no_stray, object, text,
};
use query_tokens::is_reserved;
use serde_json::Value;
use std::alloc::Global;

/// The names and the alternatives of the variables, in the order of their numbers.
pub fn vars(alloc: Global, value: &Value) -> Result<(NameList, TakeList), ReadJobFault>
    ensures answer { Answers (λ found. (shown found.0.items, items_of found.1.items)) (vars (view value.now)) result }
    ensures counts { IfOk result (λ found. (1 ≤ length found.0.items) × (length found.0.items ≤ 16)) }
    ensures takes { IfOk result (λ found. length found.1.items ≡ length found.0.items) }
    ensures alternatives { IfOk result (λ found. All (λ take. Counts 1 4 take.items) found.1.items) }
{
    let found = needed(value, "vars", Member::Vars, 0)?;
    let list = listed(found, 1, 16, Member::Vars, 0)?;
    let mut names = NameList::new(alloc);
    let mut takes = TakeList::new(alloc);
    for i in 0..list.len() {
        var(alloc, element(list, i), &mut names, &mut takes)?;
    }
    Ok((names, takes))
}

// Puts the next variable at the end of the names and the alternatives.
fn var(
    alloc: Global,
    value: &Value,
    names: &mut NameList,
    takes: &mut TakeList,
) -> Result<(), ReadJobFault>
    requires { length names.old.items < 16 }
    ensures answer { Answers (λ _. (shown names.new.items, items_of takes.new.items))
        (var (shown names.old.items, items_of takes.old.items) (view value.now)) result }
    ensures names { OnOk result (length names.new.items ≡ length names.old.items + 1) }
    ensures takes { OnOk result (length takes.new.items ≡ length takes.old.items + 1) }
    ensures alternatives { OnOk result (All (λ take. Counts 1 4 take.items) takes.old.items
        → All (λ take. Counts 1 4 take.items) takes.new.items) }
{
    let index = names.len() as u32;
    let members = object(value, Member::Vars, index)?;
    no_stray(members, &["name", "take"], Member::Vars, index)?;
    let name = copied(alloc, var_name(value, names, index)?)?;
    let take = var_take(alloc, value, index)?;
    put(names, name)?;
    put(takes, take)?;
    Ok(())
}

// The name of a variable, which is none of those before it.
fn var_name<'v>(value: &'v Value, earlier: &NameList, index: u32) -> Result<&'v str, JobFault>
    ensures { result_map_both (λ name. name.now) (λ fault. fault) result
        ≡ var_name index (shown earlier.now.items) (view value.now) }
{
    let found = needed(value, "name", Member::VarsName, index)?;
    let name = text(found, Member::VarsName, index)?;
    if !is_free(name) {
        return Err(fault_at(Member::VarsName, index, JobWhat::BadName));
    }
    if is_among(earlier, name) {
        return Err(fault_at(Member::VarsName, index, JobWhat::Twice));
    }
    Ok(name)
}

// Whether a variable may have this name.
fn is_free(name: &str) -> bool
    ensures { result ≡ is_free name.now }
{
    is_identifier(name) && !is_reserved(name.as_bytes())
}

// The alternatives of a variable.
fn var_take(alloc: Global, value: &Value, index: u32) -> Result<FieldList, ReadJobFault>
    ensures answer { Answers (λ take. take.items) (var_take index (view value.now)) result }
    ensures counts { IfOk result (λ take. (1 ≤ length take.items) × (length take.items ≤ 4)) }
{
    let found = needed(value, "take", Member::VarsTake, index)?;
    let list = listed(found, 1, 4, Member::VarsTake, index)?;
    let mut take = FieldList::new(alloc);
    for i in 0..list.len() {
        field(element(list, i), &mut take, index)?;
    }
    Ok(take)
}

// Puts the next alternative at the end.
fn field(value: &Value, take: &mut FieldList, index: u32) -> Result<(), ReadJobFault>
    ensures answer { Answers (λ _. take.new.items) (field index take.old.items (view value.now)) result }
    ensures length { OnOk result (length take.new.items ≡ length take.old.items + 1) }
{
    let name = text(value, Member::VarsTake, index)?;
    let found = field_in(name, Member::VarsTake, index)?;
    put(take, found)?;
    Ok(())
}
