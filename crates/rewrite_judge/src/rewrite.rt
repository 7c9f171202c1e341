//! The judge of rewritten packets.

ghost use Rattle.std.specs.Prelude.{◌≡◌, ◌<◌, ◌^◌, length, All};
ghost use Rattle.ds_base.specs.declared.verdict.Verdict.{Verdict};
ghost use Rattle.rewrite_judge.specs.Rule.{keeps};
ghost use Rattle.rewrite_judge.specs.Pairs.{crosses};
ghost use Rattle.rewrite_judge.specs.Rewrite.{IsRewriteVerdict, rewrite_verdict, first_broken};

use crate::rule::{Rule, RuleList, agree};
use ds_base::{Group, Summary, SummaryList, Verdict};

/// Whether a packet was rewritten as it should on its way from capture `from` straight to capture `to`.
/// The pairs are the neighbouring members of which the first is of `from` and the second of `to`,
/// numbered from 0. Rewrite with the least pair that breaks a rule, and its first broken rule, numbered
/// from 0. Where no pair breaks one, Fine.
pub fn judge_rewrite(group: &Group, from: u32, to: u32, rules: &RuleList) -> Verdict
    requires values { All (λ rule. All (λ member. rule.var < length member.vals) group.now.members.items) rules.now.items }
    requires few_rules { length rules.now.items < 2 ^ 32 }
    ensures verdict { IsRewriteVerdict from to rules.now.items group.now.members.items result }
    ensures only { (other : Verdict) → IsRewriteVerdict from to rules.now.items group.now.members.items other → other ≡ result }
    ensures value { result ≡ rewrite_verdict from to rules.now.items group.now.members.items }
{
    first_rewrite(&group.members, from, to, rules)
}

// Each two neighbours in turn.
fn first_rewrite(members: &SummaryList, from: u32, to: u32, rules: &RuleList) -> Verdict
    requires values { All (λ rule. All (λ member. rule.var < length member.vals) members.now.items) rules.now.items }
    requires few_rules { length rules.now.items < 2 ^ 32 }
    ensures { result ≡ rewrite_verdict from to rules.now.items members.now.items }
{
    let mut pair: u64 = 0;
    for next in 1..members.len() {
        let first = members.get(next - 1);
        let second = members.get(next);
        if crosses(first, second, from, to) {
            if let Some(rule) = first_broken(rules, first, second) {
                return Verdict::Rewrite { pair, rule };
            }
            pair += 1;
        }
    }
    Verdict::Fine
}

// Whether the first member is of the one capture and the second of the other.
fn crosses(first: &Summary, second: &Summary, from: u32, to: u32) -> bool
    ensures { result ≡ crosses from to (first.now, second.now) }
{
    first.at.capture == from && second.at.capture == to
}

// The number of the first rule that two members break.
fn first_broken(rules: &RuleList, first: &Summary, second: &Summary) -> Option<u32>
    requires first_values { All (λ rule. rule.var < length first.now.vals) rules.now.items }
    requires second_values { All (λ rule. rule.var < length second.now.vals) rules.now.items }
    requires few_rules { length rules.now.items < 2 ^ 32 }
    ensures { result ≡ first_broken rules.now.items (first.now, second.now) }
{
    for i in 0..rules.len() {
        if !keeps(rules.get(i), first, second) {
            return Some(i as u32);
        }
    }
    None
}

// Whether two members keep a rule.
#[tactic(auto, using(std::proofs::lemmas::Option::get_or_from_slice_get))]
fn keeps(rule: &Rule, first: &Summary, second: &Summary) -> bool
    requires first_value { rule.now.var < length first.now.vals }
    requires second_value { rule.now.var < length second.now.vals }
    ensures { result ≡ keeps rule.now (first.now, second.now) }
{
    agree(
        &rule.how,
        first.vals.get(rule.var),
        second.vals.get(rule.var),
    )
}
