//! The rows of the query: its kind, and the members of that kind.

ghost use Rattle.std.specs.Prelude.{◌≡◌, ◌≤◌, ◌<◌, ◌^◌, length, IfOk};
ghost use Rattle.query_lang.specs.declared.names.Scope.TheVariants as scope;
ghost use Rattle.serde_json.specs.View.{view, members_view};
ghost use Rattle.job_values.specs.declared.member.Member.TheVariants as member;
ghost use Rattle.job_values.specs.Parsed.{shown};
ghost use Rattle.job_values.specs.Said.{Answers};
ghost use Rattle.job_values.specs.Values.{no_stray};
ghost use Rattle.job_table.specs.Question.{question_of};
ghost use Rattle.job_table.specs.Limits.{IsQuestion};
ghost use Rattle.job_table.specs.QueryTable.{kind_named, members_of, kind, hop, rewrite, expr, question, query};

use crate::filters::short_text;
use crate::kinds::{Query, QuestionKind};
use crate::numbers::exits;
use crate::patterns::allow;
use crate::rewrites::{from, rules, to};
use crate::rules::{copied, known};
use ds_base::NameList;
use job_values::{
    JobFault, JobWhat, Member, ReadJobFault, expression_in, fault_at, needed, no_stray, object,
    text,
};
use query_lang::{Names, Scope};
use serde_json::{Map, Value};
use std::alloc::Global;

/// What is asked of each group.
pub fn query(alloc: Global, value: &Value, names: &Names) -> Result<Query, ReadJobFault>
    requires variables { length names.now.vars.items ≤ 16 }
    requires captures { length names.now.captures.items ≤ 64 }
    ensures answer { Answers question_of
        (query (shown names.now.vars.items) (shown names.now.captures.items) (view value.now)) result }
    ensures lawful { IfOk result (λ query. IsQuestion (shown names.now.vars.items) (shown names.now.captures.items) (question_of query)) }
{
    let found = needed(value, "query", Member::Query, 0)?;
    let members = object(found, Member::Query, 0)?;
    let asked = kind(found)?;
    no_stray_of(asked, members)?;
    question(alloc, asked, found, names)
}

// The kind of a query.
fn kind(value: &Value) -> Result<QuestionKind, JobFault>
    ensures { result ≡ kind (view value.now) }
{
    let found = needed(value, "kind", Member::QueryKind, 0)?;
    let name = text(found, Member::QueryKind, 0)?;
    match kind_named(name) {
        Some(asked) => Ok(asked),
        None => Err(fault_at(Member::QueryKind, 0, JobWhat::Unknown)),
    }
}

fn kind_named(name: &str) -> Option<QuestionKind>
    ensures { result ≡ kind_named name.now }
{
    match name {
        "all" => Some(QuestionKind::All),
        "loop" => Some(QuestionKind::Loop),
        "drop" => Some(QuestionKind::Drop),
        "path" => Some(QuestionKind::Path),
        "rewrite" => Some(QuestionKind::Rewrite),
        "test" => Some(QuestionKind::Test),
        _ => None,
    }
}

// Refuses a query with a member that is not of its kind.
fn no_stray_of(asked: QuestionKind, members: &Map<String, Value>) -> Result<(), JobFault>
    ensures { result ≡ no_stray member.Query 0 (members_of asked) (members_view members.now.entries) }
{
    match asked {
        QuestionKind::All => no_stray(members, &["kind"], Member::Query, 0),
        QuestionKind::Loop => no_stray(members, &["kind", "hop"], Member::Query, 0),
        QuestionKind::Drop => no_stray(members, &["kind", "exits"], Member::Query, 0),
        QuestionKind::Path => no_stray(members, &["kind", "allow"], Member::Query, 0),
        QuestionKind::Rewrite => no_stray(
            members,
            &["kind", "from", "to", "rules"],
            Member::Query,
            0,
        ),
        QuestionKind::Test => no_stray(members, &["kind", "expr"], Member::Query, 0),
    }
}

// The members of a query by its kind.
fn question(
    alloc: Global,
    asked: QuestionKind,
    value: &Value,
    names: &Names,
) -> Result<Query, ReadJobFault>
    requires variables { length names.now.vars.items ≤ 16 }
    requires captures { length names.now.captures.items ≤ 64 }
    ensures answer { Answers question_of
        (question (shown names.now.vars.items) (shown names.now.captures.items) asked (view value.now)) result }
    ensures lawful { IfOk result (λ query. IsQuestion (shown names.now.vars.items) (shown names.now.captures.items) (question_of query)) }
{
    match asked {
        QuestionKind::All => Ok(Query::All),
        QuestionKind::Loop => {
            let hop = hop(value, &names.vars)?;
            Ok(Query::Loop { hop })
        }
        QuestionKind::Drop => {
            let set = exits(alloc, value, &names.captures)?;
            Ok(Query::Exits { set })
        }
        QuestionKind::Path => {
            let allow = allow(alloc, value, &names.captures)?;
            Ok(Query::Path { allow })
        }
        QuestionKind::Rewrite => rewrite(alloc, value, names),
        QuestionKind::Test => expr(alloc, value, names),
    }
}

// The hop variable of a loop.
fn hop(value: &Value, variables: &NameList) -> Result<u32, JobFault>
    requires { length variables.now.items < 2 ^ 32 }
    ensures answer { result ≡ hop (shown variables.now.items) (view value.now) }
    ensures within { IfOk result (λ n. n < length variables.now.items) }
{
    let found = needed(value, "hop", Member::QueryHop, 0)?;
    known(found, variables, Member::QueryHop, 0)
}

// The captures and the rules of a rewrite.
fn rewrite(alloc: Global, value: &Value, names: &Names) -> Result<Query, ReadJobFault>
    requires variables { length names.now.vars.items ≤ 16 }
    requires captures { length names.now.captures.items ≤ 64 }
    ensures answer { Answers question_of
        (rewrite (shown names.now.vars.items) (shown names.now.captures.items) (view value.now)) result }
    ensures lawful { IfOk result (λ query. IsQuestion (shown names.now.vars.items) (shown names.now.captures.items) (question_of query)) }
{
    let from = from(value, &names.captures)?;
    let to = to(value, &names.captures)?;
    let rules = rules(alloc, value, &names.vars)?;
    Ok(Query::Rewrite { from, to, rules })
}

// The expression of a test.
fn expr(alloc: Global, value: &Value, names: &Names) -> Result<Query, ReadJobFault>
    requires variables { length names.now.vars.items ≤ 16 }
    requires captures { length names.now.captures.items ≤ 64 }
    ensures answer { Answers question_of
        (expr (shown names.now.vars.items) (shown names.now.captures.items) (view value.now)) result }
    ensures lawful { IfOk result (λ query. IsQuestion (shown names.now.vars.items) (shown names.now.captures.items) (question_of query)) }
{
    let found = needed(value, "expr", Member::QueryExpr, 0)?;
    let given = short_text(found, Member::QueryExpr)?;
    let expr = expression_in(alloc, given, names, Scope::Group, Member::QueryExpr)?;
    let text = copied(alloc, given)?;
    Ok(Query::Test { text, expr })
}
