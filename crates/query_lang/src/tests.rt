//! Expressions: their tokens, trees, faults and values, beside what formats say of them.

ghost use Rattle.std.specs.Prelude.{◌≡◌, ◌<◌, ◌∷◌, [], ◌++◌, length, IfOk, OnOk, All};

use crate::{Expr, Names, ParseFault, QueryFault, QueryWhat, Scope, eval_group, eval_one, parse};
use ds_base::{Group, ItemList, NameList, Nums, OutOfMemory, Stamp, Summary, Text};
use query_syntax::{Syntax, syntax_of};
use query_tokens::{Operator, tokens_of};
use std::alloc::Global;
use std::process::Abort;
use std::test::Fail;

// The variables id and ttl, and the captures s1, s2 and s3.
fn names(alloc: Global) -> Result<Names, OutOfMemory>
    ensures { IfOk result (λ n. (length n.vars.items ≡ 2) × (length n.captures.items ≡ 3)) }
{
    let mut vars = NameList::new(alloc);
    put(&mut vars, named(alloc, "id")?)?;
    put(&mut vars, named(alloc, "ttl")?)?;
    let mut captures = NameList::new(alloc);
    put(&mut captures, named(alloc, "s1")?)?;
    put(&mut captures, named(alloc, "s2")?)?;
    put(&mut captures, named(alloc, "s3")?)?;
    Ok(Names { vars, captures })
}

fn named(alloc: Global, name: &str) -> Result<Text, OutOfMemory> {
    let mut text = Text::new(alloc);
    text.push_str(name)?;
    Ok(text)
}

fn put<T: Drop>(list: &mut ItemList<T>, item: T) -> Result<(), OutOfMemory>
    ensures { OnOk result (list.new.items ≡ list.old.items ++ item ∷ []) }
{
    match list.push(item) {
        Ok(()) => Ok(()),
        Err(_) => Err(OutOfMemory),
    }
}

// A summary with two values.
fn summary(time: u64, capture: u32, id: u128, ttl: u128) -> Summary
    ensures { length result.vals ≡ 2 }
{
    let mut vals = Nums::new();
    vals.push(id);
    vals.push(ttl);
    let at = Stamp {
        time,
        capture,
        number: 0,
    };
    let key = Nums::new();
    Summary { at, key, vals }
}

fn value_one(rt: &impl Abort, alloc: Global, text: &str) -> Result<Option<u128>, Fail> {
    assert!(rt; text.len() <= 1024);
    let names = names(alloc)?;
    let e = parse(alloc, text, &names, Scope::One)?;
    Ok(eval_one(&e, &summary(1_000, 2, 7, 64)))
}

#[test]
fn expressions_have_their_meaning_over_a_summary(rt: HostRuntime) -> Result<(), Fail> {
    for (text, value) in [
        ("2 - 3", None),
        ("1 || 1/0", Some(1)),
        ("0 && 1/0", Some(0)),
        ("1/0 || 1", None),
        ("10.0.0.1", Some(167_772_161)),
        ("6 & 3 == 2", Some(1)),
        ("7 - 2 - 1", Some(4)),
        ("1 + 2 * 3 % 4", Some(3)),
        ("not(id == 7) + not(0)", Some(1)),
        ("time * 100 + capture * 10 + ttl / 60", Some(100_021)),
        ("340282366920938463463374607431768211455", Some(u128::MAX)),
        ("0xffffffffffffffffffffffffffffffff + 1", None),
        (
            "((((((((((((((((((((((((((((((((1))))))))))))))))))))))))))))))))",
            Some(1),
        ),
    ] {
        assert_eq!(rt; value_one(&rt, rt.alloc(), text)?, value, "{text}");
    }
    Ok(())
}

fn fault(
    rt: &impl Abort,
    alloc: Global,
    text: &str,
    scope: Scope,
) -> Result<Option<QueryFault>, Fail> {
    assert!(rt; text.len() <= 1024);
    let names = names(alloc)?;
    match parse(alloc, text, &names, scope) {
        Ok(_) => Ok(None),
        Err(ParseFault::Bad(fault)) => Ok(Some(fault)),
        Err(ParseFault::OutOfMemory) => Err(OutOfMemory)?,
    }
}

#[test]
fn the_first_fault_is_told_in_its_place(rt: HostRuntime) -> Result<(), Fail> {
    for (text, scope, at, what) in [
        ("10.0.0.256", Scope::One, 0, QueryWhat::Token),
        ("1.5", Scope::One, 0, QueryWhat::Token),
        ("0X1F", Scope::One, 0, QueryWhat::Token),
        ("0x", Scope::One, 0, QueryWhat::Token),
        (
            "0x0ffffffffffffffffffffffffffffffff",
            Scope::One,
            0,
            QueryWhat::Token,
        ),
        (
            "340282366920938463463374607431768211456",
            Scope::One,
            0,
            QueryWhat::Token,
        ),
        ("id $ 1", Scope::One, 3, QueryWhat::Token),
        ("1 2 $", Scope::One, 2, QueryWhat::Syntax),
        ("", Scope::One, 0, QueryWhat::Syntax),
        ("1 +", Scope::One, 3, QueryWhat::Syntax),
        ("1<2<3", Scope::One, 3, QueryWhat::Syntax),
        ("1_a", Scope::One, 1, QueryWhat::Syntax),
        ("at(s1)", Scope::Group, 5, QueryWhat::Syntax),
        (
            "(((((((((((((((((((((((((((((((((",
            Scope::One,
            32,
            QueryWhat::Deep,
        ),
        ("nosuch", Scope::One, 0, QueryWhat::Name),
        ("nosuch + ", Scope::One, 9, QueryWhat::Syntax),
        ("1 + count()", Scope::One, 4, QueryWhat::Name),
        ("id", Scope::Group, 0, QueryWhat::Name),
        ("not(id)", Scope::Group, 4, QueryWhat::Name),
        ("span() + time", Scope::Group, 9, QueryWhat::Name),
        ("seen(id)", Scope::Group, 5, QueryWhat::Name),
        ("at(s1, s2)", Scope::Group, 7, QueryWhat::Name),
    ] {
        let told = fault(&rt, rt.alloc(), text, scope)?;
        assert_eq!(rt; told, Some(QueryFault { at, what }), "{text}");
    }
    Ok(())
}

// The copies of one packet: ttl 62 at s1, and ttl 64 at s2 ten nanoseconds later.
fn copies(alloc: Global) -> Result<Group, OutOfMemory>
    ensures { IfOk result (λ g. (0 < length g.members.items) × All (λ s. length s.vals ≡ 2) g.members.items) }
{
    let mut members = ItemList::new(alloc);
    put(&mut members, summary(1_000_000_000, 0, 7, 62))?;
    put(&mut members, summary(1_000_000_010, 1, 7, 64))?;
    let key = Nums::new();
    Ok(Group { key, members })
}

fn value_group(rt: &impl Abort, alloc: Global, text: &str) -> Result<Option<u128>, Fail> {
    assert!(rt; text.len() <= 1024);
    let names = names(alloc)?;
    let e = parse(alloc, text, &names, Scope::Group)?;
    Ok(eval_group(&e, &copies(alloc)?))
}

#[test]
fn expressions_have_their_meaning_over_a_group(rt: HostRuntime) -> Result<(), Fail> {
    for (text, value) in [
        ("first(ttl) - last(ttl)", None),
        ("at(s3, ttl)", None),
        ("at(s2, ttl)", Some(64)),
        ("seen(s2) * 10 + count()", Some(12)),
        ("0xffffffffffffffffffffffffffffffff", Some(u128::MAX)),
        ("0xffffffffffffffffffffffffffffffff + 1", None),
        ("span() * 10000 + min(ttl) * 100 + max(ttl)", Some(106_264)),
        ("distinct(id) * 10 + distinct(ttl)", Some(12)),
    ] {
        assert_eq!(rt; value_group(&rt, rt.alloc(), text)?, value, "{text}");
    }
    Ok(())
}

#[test]
fn long_texts_are_read(rt: HostRuntime) -> Result<(), Fail> {
    let mut sum = named(rt.alloc(), "1")?;
    let mut signs = Text::new(rt.alloc());
    for _ in 0..511 {
        sum.push_str("+1")?;
        signs.push_str("--")?;
    }
    assert_eq!(rt; value_one(&rt, rt.alloc(), sum.as_str())?, Some(512));
    let told = fault(&rt, rt.alloc(), signs.as_str(), Scope::One)?;
    assert_eq!(rt;
        told,
        Some(QueryFault {
            at: 0,
            what: QueryWhat::Syntax
        })
    );
    Ok(())
}

#[test]
fn texts_are_split_into_tokens(rt: HostRuntime) -> Result<(), Fail> {
    for (text, count, stop) in [
        ("seen( s1 ) * 10", 6, None),
        ("0x1f<=10.0.0.1", 3, None),
        ("id $ 1", 1, Some(3)),
        ("1.5", 0, Some(0)),
        ("", 0, None),
    ] {
        assert!(rt; text.len() < 100);
        let lexing = tokens_of(rt.alloc(), text)?;
        assert_eq!(rt; (lexing.tokens.len(), lexing.stop), (count, stop), "{text}");
    }
    Ok(())
}

#[test]
fn a_tree_keeps_its_parentheses(rt: HostRuntime) -> Result<(), Fail> {
    let tree = syntax_of(rt.alloc(), "(1 + 2) * 3")?;
    let Syntax::Joined(Operator::Times, left, _) = tree else {
        return Err("no product")?;
    };
    assert!(rt; matches!(*left, Syntax::Parenthesis(_)));
    Ok(())
}
