//! Texts that name a field, and texts that are expressions.

ghost use Rattle.std.specs.Prelude.{◌≡◌, ◌≤◌, ◌<◌, ◌^◌, length, Ok, IfOk};
ghost use Rattle.query_lang.specs.Expression.{expression_of, AllTerms, VariablesBelow};
ghost use Rattle.query_lang.specs.Grammar.{InScope};
ghost use Rattle.job_values.specs.declared.fault.JobWhat.TheVariants as what;
ghost use Rattle.job_values.specs.Said.{Answers, or_fault};
ghost use Rattle.job_values.specs.Fields.{field_of};
ghost use Rattle.job_values.specs.Parsed.{expression, parsed, shown};

use crate::fault::{JobFault, JobWhat, ReadJobFault, fault_at};
use crate::member::Member;
use field_table::{FieldRef, field};
use query_lang::{Expr, Names, ParseFault, Scope, parse};
use std::alloc::Global;

/// The field that a text names.
pub fn field_in(text: &str, member: Member, index: u32) -> Result<FieldRef, JobFault>
    ensures { result ≡ or_fault member index what.Field (field_of text.now) }
{
    match field(text) {
        Some(f) => Ok(f),
        None => Err(fault_at(member, index, JobWhat::Field)),
    }
}

/// The expression that a text is, with these names.
pub fn expression_in(
    alloc: Global,
    text: &str,
    names: &Names,
    scope: Scope,
    member: Member,
) -> Result<Expr, ReadJobFault>
    requires text { length text.now ≤ 1024 }
    requires variables { length names.now.vars.items < 2 ^ 32 }
    requires captures { length names.now.captures.items < 2 ^ 32 }
    ensures answer { Answers expression_of (expression member scope (shown names.now.vars.items) (shown names.now.captures.items) text.now) result }
    ensures parsed { IfOk result (λ e. parsed scope (shown names.now.vars.items) (shown names.now.captures.items) text.now ≡ Ok (expression_of e)) }
    ensures scope { IfOk result (λ e. AllTerms (InScope scope (length names.now.vars.items)
        (length names.now.captures.items)) (expression_of e)) }
    ensures variables { IfOk result (λ e. VariablesBelow (length names.now.vars.items) (expression_of e)) }
{
    match parse(alloc, text, names, scope) {
        Ok(e) => Ok(e),
        Err(ParseFault::Bad(f)) => {
            let what = JobWhat::Expression {
                at: f.at,
                what: f.what,
            };
            Err(ReadJobFault::Bad(fault_at(member, 0, what)))
        }
        Err(ParseFault::OutOfMemory) => Err(ReadJobFault::OutOfMemory),
    }
}
