//! The rows with an expression: the filter, and the text of any.

ghost use Rattle.std.specs.Prelude.{◌≡◌, ◌≤◌, ◌<◌, ◌^◌, length, IfOk};
ghost use Rattle.query_lang.specs.Expression.{expression_of};
ghost use Rattle.query_lang.specs.declared.names.Scope.TheVariants as scope;
ghost use Rattle.serde_json.specs.View.{view};
ghost use Rattle.std.specs.Result.{result_map_both};
ghost use Rattle.job_values.specs.Parsed.{shown};
ghost use Rattle.job_values.specs.Said.{Answers};
ghost use Rattle.job_table.specs.Limits.{IsParsed};
ghost use Rattle.job_table.specs.Table.{short_text, filter_text, filter};

use crate::rules::{copied, in_limits};
use ds_base::Text;
use job_values::{JobFault, Member, ReadJobFault, expression_in, text};
use query_lang::{Expr, Names, Scope};
use serde_json::Value;
use std::alloc::Global;

/// The text of an expression, at most 1,024 bytes.
pub(crate) fn short_text(value: &Value, member: Member) -> Result<&str, JobFault>
    ensures answer { result_map_both (λ given. given.now) (λ fault. fault) result ≡ short_text member (view value.now) }
    ensures short { IfOk result (λ given. length given.now ≤ 1024) }
{
    let given = text(value, member, 0)?;
    in_limits(given.len() as u64, 0, 1024, member, 0)?;
    Ok(given)
}

// The text of the filter.
fn filter_text(value: &Value) -> Result<&str, JobFault>
    ensures answer { result_map_both (λ given. given.now) (λ fault. fault) result ≡ filter_text (view value.now) }
    ensures short { IfOk result (λ given. length given.now ≤ 1024) }
{
    match value.get("filter") {
        Some(found) => short_text(found, Member::Filter),
        None => Ok("1"),
    }
}

/// The filter as it was given, and what it is with these names.
pub fn filter(alloc: Global, value: &Value, names: &Names) -> Result<(Text, Expr), ReadJobFault>
    requires variables { length names.now.vars.items < 2 ^ 32 }
    requires captures { length names.now.captures.items < 2 ^ 32 }
    ensures answer { Answers (λ found. (found.0.items, expression_of found.1))
        (filter (shown names.now.vars.items) (shown names.now.captures.items) (view value.now)) result }
    ensures parsed { IfOk result (λ found. IsParsed scope.One (shown names.now.vars.items)
        (shown names.now.captures.items) found.0.items (expression_of found.1)) }
{
    let given = filter_text(value)?;
    let expression = expression_in(alloc, given, names, Scope::One, Member::Filter)?;
    let given = copied(alloc, given)?;
    Ok((given, expression))
}
