//! Worked groups and rules.

ghost use Rattle.std.specs.Prelude.{◌≡◌, ◌<◌, length, All, IfOk};

use crate::{How, PairList, Rule, RuleList, judge_rewrite};
use ds_base::{Group, Nums, Stamp, Summary, SummaryList, Verdict};
use std::alloc::Global;
use std::test::Fail;

const MOST: u128 = u128::MAX;

// A group of copies of one packet, by their captures and the values of variable 1.
fn copies(alloc: Global, seen: &[(u32, u128)]) -> Result<Group, Fail>
    ensures values { IfOk result (λ group. All (λ member. 1 < length member.vals) group.members.items) }
{
    let mut members = SummaryList::new(alloc);
    for copy in seen {
        let (capture, value) = *copy;
        let at = Stamp {
            time: 1_000_000_000,
            capture,
            number: 0,
        };
        let mut vals = Nums::new();
        vals.push(7);
        vals.push(value);
        let key = Nums::new();
        members.push(Summary { at, key, vals })?;
    }
    Ok(Group {
        key: Nums::new(),
        members,
    })
}

// One rule on variable 1.
fn one_rule(alloc: Global, how: How) -> Result<RuleList, Fail>
    ensures rules { IfOk result (λ rules. All (λ rule. rule.var ≡ 1) rules.items) }
    ensures few { IfOk result (λ rules. length rules.items < 2) }
{
    let mut rules = RuleList::new(alloc);
    let Ok(()) = rules.push(Rule { var: 1, how }) else {
        return Err(Fail::from("out of memory"));
    };
    Ok(rules)
}

// A rule on variable 1 for each amount.
fn less_by(alloc: Global, amounts: &[u128]) -> Result<RuleList, Fail>
    ensures rules { IfOk result (λ rules. All (λ rule. rule.var ≡ 1) rules.items) }
    ensures few { IfOk result (λ rules. length rules.items ≡ length amounts.now) }
{
    let mut rules = RuleList::new(alloc);
    for by in amounts {
        let how = How::Less(*by);
        let Ok(()) = rules.push(Rule { var: 1, how }) else {
            return Err(Fail::from("out of memory"));
        };
    }
    Ok(rules)
}

fn table(alloc: Global, rows: &[(u128, u128)]) -> Result<How, Fail> {
    let mut list = PairList::new(alloc);
    for row in rows {
        list.push(*row)?;
    }
    Ok(How::Table(list))
}

fn broken(pair: u64) -> Verdict {
    Verdict::Rewrite { pair, rule: 0 }
}

fn judged(
    alloc: Global,
    seen: &[(u32, u128)],
    from: u32,
    to: u32,
    how: How,
) -> Result<Verdict, Fail> {
    let group = copies(alloc, seen)?;
    let rules = one_rule(alloc, how)?;
    Ok(judge_rewrite(&group, from, to, &rules))
}

#[test]
fn the_first_row_of_a_table_decides(rt: HostRuntime) -> Result<(), Fail> {
    let seen = [(0, 64), (1, 63), (0, 64), (1, 62)];
    let cases: [(&[(u128, u128)], Verdict); 5] = [
        (&[(64, 63)], broken(1)),
        (&[(64, 63), (64, 62)], broken(1)),
        (&[(64, 62), (64, 63)], broken(0)),
        (&[(63, 62)], broken(0)),
        (&[], broken(0)),
    ];
    for (rows, want) in cases {
        let how = table(rt.alloc(), rows)?;
        assert_eq!(rt; judged(rt.alloc(), &seen, 0, 1, how)?, want, "by {rows:?}");
    }
    Ok(())
}

#[test]
fn the_value_before_is_the_value_after_plus_an_amount(rt: HostRuntime) -> Result<(), Fail> {
    let cases: [(u128, u128, u128, Verdict); 7] = [
        (64, 63, 1, Verdict::Fine),
        (63, 64, 1, broken(0)),
        (64, 64, 0, Verdict::Fine),
        (MOST, 0, MOST, Verdict::Fine),
        (MOST, 1, MOST - 1, Verdict::Fine),
        // Sums past the greatest number do not wrap.
        (0, 1, MOST, broken(0)),
        (0, MOST, 1, broken(0)),
    ];
    for (first, second, by, want) in cases {
        let seen = [(0, first), (1, second)];
        assert_eq!(rt;
            judged(rt.alloc(), &seen, 0, 1, How::Less(by))?,
            want,
            "at {first}"
        );
    }
    Ok(())
}

#[test]
fn pairs_are_numbered_among_the_pairs(rt: HostRuntime) -> Result<(), Fail> {
    let cases: [(&[(u32, u128)], u32, u32, Verdict); 6] = [
        (&[(0, MOST), (1, MOST)], 0, 1, Verdict::Fine),
        (&[(0, 9), (1, 9), (2, 5), (0, 9), (1, 8)], 0, 1, broken(1)),
        (&[(0, 9), (2, 9), (1, 8)], 0, 1, Verdict::Fine),
        (&[(1, 9), (0, 8)], 0, 1, Verdict::Fine),
        // Neighbours of one capture: each member but the last begins a pair.
        (&[(0, 9), (0, 9), (0, 8), (0, 8)], 0, 0, broken(1)),
        (&[], 0, 1, Verdict::Fine),
    ];
    for (seen, from, to, want) in cases {
        assert_eq!(rt;
            judged(rt.alloc(), seen, from, to, How::Same)?,
            want,
            "in {seen:?}"
        );
    }
    Ok(())
}

#[test]
fn the_first_broken_rule_is_named(rt: HostRuntime) -> Result<(), Fail> {
    let group = copies(rt.alloc(), &[(0, 64), (1, 62)])?;
    let rules = less_by(rt.alloc(), &[2, 1, 3])?;
    let want = Verdict::Rewrite { pair: 0, rule: 1 };
    assert_eq!(rt; judge_rewrite(&group, 0, 1, &rules), want);
    Ok(())
}
