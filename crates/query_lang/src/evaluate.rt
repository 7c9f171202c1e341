//! The meaning of an expression over a summary and over a group.

ghost use Rattle.std.specs.Prelude.{◌≡◌, ◌<◌, length, All};
ghost use Rattle.query_lang.specs.Expression.{expression_of, AllTerms, VariableBelow, VariablesBelow};
ghost use Rattle.query_lang.specs.Meaning.{meaning};
ghost use Rattle.query_lang.specs.Summaries.{meaning_one};
ghost use Rattle.query_lang.specs.Groups.{meaning_group};

use crate::expression::{Expr, Term};
use crate::members::read_of_members;
use crate::operation::{decided, joined, truth};
use ds_base::{Group, Summary};

/// The value of an expression over a summary; `None` exactly where it is undefined. The summary has
/// a value for each variable of the expression. No memory is taken.
pub fn eval_one(e: &Expr, s: &Summary) -> Option<u128>
    requires { VariablesBelow (length s.now.vals) (expression_of e.now) }
    ensures { result ≡ meaning_one (expression_of e.now) s.now }
{
    value_of(e, s)
}

/// The value of an expression over a group; `None` exactly where it is undefined. The group is not
/// empty, and each of its members has a value for each variable of the expression. No memory is
/// taken. `distinct` of many members with as many different values takes quadratic time; every
/// other term reads each member at most once.
#[tactic(auto, using(crate::proofs::Places::each_term))]
pub fn eval_group(e: &Expr, g: &Group) -> Option<u128>
    requires some { 0 < length g.now.members.items }
    requires variables { All (λ s. VariablesBelow (length s.vals) (expression_of e.now)) g.now.members.items }
    ensures { result ≡ meaning_group (expression_of e.now) g.now.members.items }
{
    value_of(e, g)
}

// What an expression is evaluated over.
trait Subject {
    ghost use Rattle.std.specs.Prelude.{ℕ, Option};
    ghost use Rattle.query_lang.specs.declared.expression.Term.{Term};

    // what a term reads here
    ghost reads: { Self → Term → Option ℕ };

    // the term's variable has a value
    ghost knows: { Self → Term → Type 0 };

    fn read(&self, term: Term) -> Option<u128>
        requires { knows self.now term }
        ensures { result ≡ reads self.now term };
}

impl Subject for Summary {
    ghost use Rattle.std.specs.Prelude.{length};
    ghost use Rattle.query_lang.specs.Expression.{VariableBelow};
    ghost use Rattle.query_lang.specs.Summaries.{read_of_summary};

    ghost reads = { read_of_summary };

    ghost knows = { λ s. VariableBelow (length s.vals) };

    fn read(&self, term: Term) -> Option<u128> {
        match term {
            Term::Variable(v) => Some(self.vals.get(v)),
            Term::Time => Some(u128::from(self.at.time)),
            Term::Capture => Some(u128::from(self.at.capture)),
            _ => None,
        }
    }
}

impl Subject for Group {
    ghost use Rattle.std.specs.Prelude.{◌<◌, length, All};
    ghost use Rattle.query_lang.specs.Expression.{VariableBelow};
    ghost use Rattle.query_lang.specs.Groups.{read_of_members};

    ghost reads = { λ g. read_of_members g.members.items };

    ghost knows = { λ g term. (0 < length g.members.items)
        × All (λ s. VariableBelow (length s.vals) term) g.members.items };

    fn read(&self, term: Term) -> Option<u128> {
        read_of_members(&self.members, term)
    }
}

fn value_of<S: Subject>(e: &Expr, subject: &S) -> Option<u128>
    requires { AllTerms (S.knows subject.now) (expression_of e.now) }
    ensures { result ≡ meaning (S.reads subject.now) (expression_of e.now) }
{
    match e {
        Expr::Number(n) => Some(*n),
        Expr::Read(term) => subject.read(*term),
        Expr::Not(inner) => {
            let n = value_of(inner, subject)?;
            Some(truth(n == 0))
        }
        Expr::Binary(operator, left, right) => {
            let left = value_of(left, subject)?;
            match decided(*operator, left) {
                Some(n) => Some(n),
                None => {
                    let right = value_of(right, subject)?;
                    joined(*operator, left, right)
                }
            }
        }
    }
}
