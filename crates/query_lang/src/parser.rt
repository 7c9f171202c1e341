//! A text, parsed to an expression.

ghost use Rattle.std.specs.Prelude.{◌≤◌, ◌<◌, ◌^◌, length, IfOk, IfErr};
ghost use Rattle.query_lang.specs.Expression.{expression_of, AllTerms, VariablesBelow};
ghost use Rattle.query_lang.specs.Grammar.{Gives, Refuses, InScope};

use crate::expression::Expr;
use crate::names::{Names, Scope};
use crate::resolve::resolve;
use query_syntax::{ParseFault, syntax_of};
use std::alloc::Global;

/// The expression of a text of at most 1,024 bytes, or exactly its first fault. A `Name` fault comes
/// only where the text has no other; want of memory is the one further answer.
#[tactic(auto, using(crate::proofs::Barred::in_scope, crate::proofs::Barred::variables_below))]
pub fn parse(alloc: Global, text: &str, names: &Names, scope: Scope) -> Result<Expr, ParseFault>
    requires text { length text.now ≤ 1024 }
    requires variables { length names.now.vars.items < 2 ^ 32 }
    requires captures { length names.now.captures.items < 2 ^ 32 }
    ensures expression { IfOk result (λ e. Gives text.now names.now scope (expression_of e)) }
    ensures fault { IfErr result (λ fault. Refuses text.now names.now scope fault) }
    ensures scope { IfOk result (λ e. AllTerms (InScope scope (length names.now.vars.items)
        (length names.now.captures.items)) (expression_of e)) }
    ensures variables { IfOk result (λ e. VariablesBelow (length names.now.vars.items) (expression_of e)) }
{
    match syntax_of(alloc, text) {
        Ok(tree) => resolve(alloc, names, text.as_bytes(), scope, &tree),
        Err(fault) => Err(fault),
    }
}
