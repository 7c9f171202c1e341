//! The names of a syntax tree, looked up.

ghost use Rattle.std.specs.Prelude.{◌≡◌, ◌<◌, ◌^◌, [], length, IfOk, IfErr};
ghost use Rattle.query_syntax.specs.Tree.{tree_of};
ghost use Rattle.query_lang.specs.Expression.{expression_of, Negation, Operation};
ghost use Rattle.query_lang.specs.Grammar.{atom_mentions, mentions, atom_expression, expression, stamp_term, whole_term, call_term, Resolves};

use crate::expression::{Expr, Term};
use crate::names::{Names, Scope, barred, number_of};
use ds_base::OutOfMemory;
use query_syntax::{Atom, ParseFault, Syntax};
use query_tokens::{Measure, Operator, Part, Pick, Word};
use std::alloc::Global;

/// The expression that a syntax tree of the text stands for, or the first word that the scope does
/// not allow. The calls go as deep as the tree, which is at most as deep as its text has tokens.
#[tactic(auto, using(crate::proofs::Barred::resolves_left, crate::proofs::Barred::resolves_right, crate::proofs::Barred::resolves_both))]
pub(crate) fn resolve(
    alloc: Global,
    names: &Names,
    text: &[u8],
    scope: Scope,
    tree: &Syntax,
) -> Result<Expr, ParseFault>
    requires variables { length names.now.vars.items < 2 ^ 32 }
    requires captures { length names.now.captures.items < 2 ^ 32 }
    ensures { Resolves (mentions names.now text.now scope (tree_of tree.now))
        (expression names.now text.now (tree_of tree.now)) result }
{
    match tree {
        Syntax::Leaf(atom) => match scope {
            Scope::One => atom_of_one(names, text, *atom),
            Scope::Group => atom_of_group(names, text, *atom),
        },
        Syntax::Parenthesis(inner) => resolve(alloc, names, text, scope, inner),
        Syntax::Negated(_, inner) => match resolve(alloc, names, text, scope, inner) {
            Ok(inner) => negation(alloc, inner),
            Err(fault) => Err(fault),
        },
        Syntax::Joined(operator, left, right) => {
            match resolve(alloc, names, text, scope, left) {
                Ok(left) => match resolve(alloc, names, text, scope, right) {
                    Ok(right) => operation(alloc, *operator, left, right),
                    Err(fault) => Err(fault),
                },
                Err(fault) => Err(fault),
            }
        }
    }
}

// What an atom stands for in scope One.
fn atom_of_one(names: &Names, text: &[u8], atom: Atom) -> Result<Expr, ParseFault>
    requires { length names.now.vars.items < 2 ^ 32 }
    ensures { Resolves (atom_mentions names.now text.now Scope.One atom)
        (atom_expression names.now text.now atom) result }
{
    match atom {
        Atom::Number(n) => Ok(Expr::Number(n)),
        Atom::Name(word) => match number_of(&names.vars, text, word) {
            Ok(variable) => Ok(Expr::Read(Term::Variable(variable))),
            Err(fault) => Err(fault),
        },
        Atom::Stamp(part, _) => Ok(Expr::Read(stamp_term(part))),
        Atom::Whole(_, at) => Err(barred(at)),
        Atom::Of(_, at, _) => Err(barred(at)),
        Atom::At(at, _, _) => Err(barred(at)),
    }
}

// What an atom stands for in scope Group.
fn atom_of_group(names: &Names, text: &[u8], atom: Atom) -> Result<Expr, ParseFault>
    requires variables { length names.now.vars.items < 2 ^ 32 }
    requires captures { length names.now.captures.items < 2 ^ 32 }
    ensures { Resolves (atom_mentions names.now text.now Scope.Group atom)
        (atom_expression names.now text.now atom) result }
{
    match atom {
        Atom::Number(n) => Ok(Expr::Number(n)),
        Atom::Name(word) => Err(barred(word.at)),
        Atom::Stamp(_, at) => Err(barred(at)),
        Atom::Whole(measure, _) => Ok(Expr::Read(whole_term(measure))),
        Atom::Of(pick, at, word) => call(names, text, pick, at, word),
        Atom::At(at, capture, variable) => first_of(names, text, at, capture, variable),
    }
}

// What a call on one name stands for.
fn call(names: &Names, text: &[u8], pick: Pick, at: u32, word: Word) -> Result<Expr, ParseFault>
    requires variables { length names.now.vars.items < 2 ^ 32 }
    requires captures { length names.now.captures.items < 2 ^ 32 }
    ensures { Resolves (atom_mentions names.now text.now Scope.Group (Atom.Of pick at word))
        (atom_expression names.now text.now (Atom.Of pick at word)) result }
{
    let list = match pick {
        Pick::Seen => &names.captures,
        _ => &names.vars,
    };
    match number_of(list, text, word) {
        Ok(n) => Ok(Expr::Read(call_term(pick, n))),
        Err(fault) => Err(fault),
    }
}

// What `at` of a capture and a variable stands for.
fn first_of(
    names: &Names,
    text: &[u8],
    at: u32,
    capture: Word,
    variable: Word,
) -> Result<Expr, ParseFault>
    requires variables { length names.now.vars.items < 2 ^ 32 }
    requires captures { length names.now.captures.items < 2 ^ 32 }
    ensures { Resolves (atom_mentions names.now text.now Scope.Group (Atom.At at capture variable))
        (atom_expression names.now text.now (Atom.At at capture variable)) result }
{
    match number_of(&names.captures, text, capture) {
        Ok(capture) => match number_of(&names.vars, text, variable) {
            Ok(variable) => Ok(Expr::Read(Term::At { capture, variable })),
            Err(fault) => Err(fault),
        },
        Err(fault) => Err(fault),
    }
}

// The term of a reserved word for a part of a stamp.
fn stamp_term(part: Part) -> Term
    ensures { result ≡ stamp_term part }
{
    match part {
        Part::Time => Term::Time,
        Part::Capture => Term::Capture,
    }
}

// The term of a call with no name.
fn whole_term(measure: Measure) -> Term
    ensures { result ≡ whole_term measure }
{
    match measure {
        Measure::Count => Term::Count,
        Measure::Span => Term::Span,
    }
}

// The term of a call on the name with this number.
fn call_term(pick: Pick, n: u32) -> Term
    ensures { result ≡ call_term pick n }
{
    match pick {
        Pick::Seen => Term::Seen(n),
        Pick::First => Term::First(n),
        Pick::Last => Term::Last(n),
        Pick::Min => Term::Min(n),
        Pick::Max => Term::Max(n),
        Pick::Distinct => Term::Distinct(n),
    }
}

// `not` of an expression.
fn negation(alloc: Global, inner: Expr) -> Result<Expr, ParseFault>
    ensures ok { IfOk result (λ e. expression_of e ≡ Negation (expression_of inner)) }
    ensures err { IfErr result (λ fault. fault ≡ ParseFault.OutOfMemory) }
{
    match boxed(alloc, inner) {
        Ok(inner) => Ok(Expr::Not(inner)),
        Err(_) => Err(ParseFault::OutOfMemory),
    }
}

// An operator between two expressions.
fn operation(alloc: Global, operator: Operator, left: Expr, right: Expr) -> Result<Expr, ParseFault>
    ensures { Resolves [] (Operation operator (expression_of left) (expression_of right)) result }
{
    let Ok(left) = boxed(alloc, left) else {
        return Err(ParseFault::OutOfMemory);
    };
    match boxed(alloc, right) {
        Ok(right) => Ok(Expr::Binary(operator, left, right)),
        Err(_) => Err(ParseFault::OutOfMemory),
    }
}

// The expression in a box.
fn boxed(alloc: Global, e: Expr) -> Result<Box<Expr>, OutOfMemory>
    ensures { IfOk result (λ b. b.value ≡ e) }
{
    match Box::new(alloc, e) {
        Ok(b) => Ok(b),
        Err(_) => Err(OutOfMemory),
    }
}
