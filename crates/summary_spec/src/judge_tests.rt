//! Each query judges a group by its own rule.

ghost use Rattle.std.specs.Prelude.{◌≡◌, ◌<◌, length, All, IfOk};

use crate::Job;
use crate::tests::{HOP, LOOPS, replaced};
use ds_base::{Group, Nums, Stamp, Summary, SummaryList, Verdict};
use std::alloc::Global;
use std::process::Abort;
use std::test::Fail;

// One copy of a packet of that job, by its value of ttl.
fn copy_at(capture: u32, ttl: u128) -> Summary
    ensures capture { result.at.capture < 64 }
    ensures values { length result.vals ≡ 2 }
{
    let at = Stamp {
        time: 1_000_000_000,
        capture: capture % 64,
        number: 0,
    };
    let mut vals = Nums::new();
    vals.push(7);
    vals.push(ttl);
    let key = Nums::new();
    Summary { at, key, vals }
}

// A group of copies, by their captures and values of ttl.
fn copies(alloc: Global, seen: &[(u32, u128)]) -> Result<Group, Fail>
    ensures captures { IfOk result (λ group. All (λ member. member.at.capture < 64) group.members.items) }
    ensures values { IfOk result (λ group. All (λ member. length member.vals ≡ 2) group.members.items) }
{
    let mut members = SummaryList::new(alloc);
    for copy in seen {
        let (capture, ttl) = *copy;
        members.push(copy_at(capture, ttl))?;
    }
    let key = Nums::new();
    Ok(Group { key, members })
}

// What the job with another query says of a group.
fn judged(
    rt: &impl Abort,
    alloc: Global,
    query: &str,
    seen: &[(u32, u128)],
) -> Result<Verdict, Fail> {
    let text = replaced(alloc, LOOPS, HOP, query)?;
    let job = Job::read(alloc, text.as_bytes()).ok().ok_or("refused")?;
    let group = copies(alloc, seen)?;
    assert!(rt; !group.members.is_empty());
    assert!(rt; job.names.vars.len() == 2);
    Ok(job.judge(&group))
}

#[test]
fn each_query_judges_a_group_by_its_own_rule(rt: HostRuntime) -> Result<(), Fail> {
    let table: [(&str, &[(u32, u128)], Verdict); 7] = [
        (r#"{"kind":"all"}"#, &[(0, 64), (0, 63)], Verdict::Fine),
        (
            HOP,
            &[(0, 64), (1, 63), (0, 62)],
            Verdict::Loop {
                capture: 0,
                high: 64,
                low: 62,
            },
        ),
        (
            r#"{"kind":"drop","exits":["s3"]}"#,
            &[(0, 64), (1, 63)],
            Verdict::Dropped { capture: 1 },
        ),
        (
            r#"{"kind":"path","allow":["s2","s1 s2 s3"]}"#,
            &[(0, 64), (2, 63), (2, 62)],
            Verdict::Path { at: 1 },
        ),
        // The second pair from s2 to s1 has lost two.
        (
            r#"{"kind":"rewrite","from":"s2","to":"s1","rules":[{"var":"id","how":"same"},{"var":"ttl","how":"less","by":1}]}"#,
            &[(0, 9), (1, 64), (0, 63), (1, 63), (0, 61)],
            Verdict::Rewrite { pair: 1, rule: 1 },
        ),
        (
            r#"{"kind":"test","expr":"seen(s1) * 10"}"#,
            &[(0, 64), (1, 63), (0, 62)],
            Verdict::Value { n: 20 },
        ),
        // No copy was seen at s3.
        (
            r#"{"kind":"test","expr":"at(s3, ttl)"}"#,
            &[(0, 64)],
            Verdict::Undefined,
        ),
    ];
    for (query, seen, want) in table {
        assert_eq!(rt; judged(&rt, rt.alloc(), query, seen)?, want, "by {query}");
    }
    Ok(())
}
