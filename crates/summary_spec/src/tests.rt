//! A job with three captures, and what its declaration reads as and prints as.

use crate::{Job, Member};
use field_table::field;
use job_values::wide;
use serde_json::Value;
use std::alloc::Global;
use std::test::Fail;

// A job with three captures, of which loops are asked.
pub(crate) const LOOPS: &str =
    r#"{"version":1,"captures":[{"name":"s1","file":"a"},{"name":"s2","file":"b"},{"name":"s3","file":"c"}],"vars":[{"name":"id","take":["ipv4[-1].id"]},{"name":"ttl","take":["ipv4[-1].ttl"]}],"key":["id"],"window":1000000,"skew":0,"query":{"kind":"loop","hop":"ttl"}}"#;

// Its canonical text.
const CANONICAL: &str =
    r#"{"captures":[{"file":"a","name":"s1"},{"file":"b","name":"s2"},{"file":"c","name":"s3"}],"filter":"1","key":["id"],"profile":false,"query":{"hop":"ttl","kind":"loop"},"skew":0,"vars":[{"name":"id","take":["ipv4[-1].id"]},{"name":"ttl","take":["ipv4[-1].ttl"]}],"version":1,"vxlan_port":4789,"window":1000000}"#;

// Its captures, those of a job of version 2, and the canonical text of these.
const CAPTURES: &str =
    r#""version":1,"captures":[{"name":"s1","file":"a"},{"name":"s2","file":"b"},{"name":"s3","file":"c"}]"#;

const CLOCKED: &str =
    r#""version":2,"captures":[{"name":"s1","file":"a"},{"skew":7,"name":"s2","offset":-5,"file":"b"},{"name":"s3","file":"c","offset":3600000000000}]"#;

const CLOCKED_CANONICAL: &str =
    r#"{"captures":[{"file":"a","name":"s1","offset":0,"skew":0},{"file":"b","name":"s2","offset":-5,"skew":7},{"file":"c","name":"s3","offset":3600000000000,"skew":0}],"filter":"1","key":["id"],"profile":false,"query":{"hop":"ttl","kind":"loop"},"skew":0,"vars":[{"name":"id","take":["ipv4[-1].id"]},{"name":"ttl","take":["ipv4[-1].ttl"]}],"version":2,"vxlan_port":4789,"window":1000000}"#;

// Captures of a job of version 3, and the canonical text of it.
const NAMED: &str =
    r#""version":3,"captures":[{"name":"s1","file":"a","interface":0},{"interface":65535,"name":"s2","file":"a","offset":-5},{"name":"s3","file":"c"}]"#;

const NAMED_CANONICAL: &str =
    r#"{"captures":[{"file":"a","interface":0,"name":"s1","offset":0,"skew":0},{"file":"a","interface":65535,"name":"s2","offset":-5,"skew":0},{"file":"c","name":"s3","offset":0,"skew":0}],"filter":"1","key":["id"],"profile":false,"query":{"hop":"ttl","kind":"loop"},"skew":0,"vars":[{"name":"id","take":["ipv4[-1].id"]},{"name":"ttl","take":["ipv4[-1].ttl"]}],"version":3,"vxlan_port":4789,"window":1000000}"#;

// Its query.
pub(crate) const HOP: &str = r#"{"kind":"loop","hop":"ttl"}"#;

// Queries, and their canonical text.
static QUERIES: [(&str, &str); 5] = [
    (r#"{"kind":"all"}"#, r#"{"kind":"all"}"#),
    (
        r#"{"kind":"drop","exits":["s3","s1"]}"#,
        r#"{"exits":["s1","s3"],"kind":"drop"}"#,
    ),
    (
        r#"{"kind":"path","allow":[" s1\t\t* ","? s3"]}"#,
        r#"{"allow":["s1 *","? s3"],"kind":"path"}"#,
    ),
    (
        r#"{"kind":"rewrite","from":"s2","to":"s1","rules":[{"how":"same","var":"id"},{"var":"ttl","how":"less","by":"0x10"},{"var":"id","how":"table","rows":[["10.0.0.1",18446744073709551615],["18446744073709551616","0xffffffffffffffffffffffffffffffff"]]}]}"#,
        r#"{"from":"s2","kind":"rewrite","rules":[{"how":"same","var":"id"},{"by":16,"how":"less","var":"ttl"},{"how":"table","rows":[[167772161,18446744073709551615],["18446744073709551616","340282366920938463463374607431768211455"]],"var":"id"}],"to":"s1"}"#,
    ),
    (
        r#"{"kind":"test","expr":"seen( s1 ) * 10"}"#,
        r#"{"expr":"seen( s1 ) * 10","kind":"test"}"#,
    ),
];

// A text with its first `part` replaced.
pub(crate) fn replaced(alloc: Global, text: &str, part: &str, by: &str) -> Result<String, Fail> {
    let (front, rest) = text.split_once(part).ok_or("not there")?;
    Ok(format!(in alloc; "{front}{by}{rest}")?)
}

fn printed(alloc: Global, text: &str) -> Result<String, Fail> {
    let job = Job::read(alloc, text.as_bytes()).ok().ok_or("refused")?;
    let text = job.print(alloc).ok().ok_or("no memory")?;
    Ok(String::from_str(alloc, text.as_str())?)
}

#[test]
fn jobs_are_printed_so_that_they_read_back(rt: HostRuntime) -> Result<(), Fail> {
    let text = printed(rt.alloc(), LOOPS)?;
    assert_eq!(rt; text.as_str(), CANONICAL);
    // The last of members of one name counts.
    let doubled = replaced(
        rt.alloc(),
        LOOPS,
        r#""skew""#,
        r#""window":5,"skew":9,"window":1000000,"skew""#,
    )?;
    let text = printed(rt.alloc(), doubled.as_str())?;
    assert_eq!(rt; text.as_str(), CANONICAL);
    // From version 2 on each capture has its offset and its skew.
    let clocked = replaced(rt.alloc(), LOOPS, CAPTURES, CLOCKED)?;
    let text = printed(rt.alloc(), clocked.as_str())?;
    assert_eq!(rt; text.as_str(), CLOCKED_CANONICAL);
    let again = printed(rt.alloc(), text.as_str())?;
    assert_eq!(rt; again.as_str(), CLOCKED_CANONICAL);
    // An interface stands in the text exactly where it was given.
    let named = replaced(rt.alloc(), LOOPS, CAPTURES, NAMED)?;
    let text = printed(rt.alloc(), named.as_str())?;
    assert_eq!(rt; text.as_str(), NAMED_CANONICAL);
    let again = printed(rt.alloc(), text.as_str())?;
    assert_eq!(rt; again.as_str(), NAMED_CANONICAL);
    for (query, canonical) in &QUERIES {
        let text = replaced(rt.alloc(), LOOPS, HOP, query)?;
        let expected = replaced(
            rt.alloc(),
            CANONICAL,
            r#"{"hop":"ttl","kind":"loop"}"#,
            canonical,
        )?;
        let text = printed(rt.alloc(), text.as_str())?;
        assert_eq!(rt; text.as_str(), expected.as_str());
        let again = printed(rt.alloc(), text.as_str())?;
        assert_eq!(rt; again.as_str(), expected.as_str());
    }
    Ok(())
}

#[test]
fn the_job_of_count_is_a_job(rt: HostRuntime) -> Result<(), Fail> {
    let id = field("ipv4[0].id").ok_or("refused")?;
    let job = Job::count(rt.alloc(), id, 1_000_000, "a")
        .ok()
        .ok_or("no memory")?;
    let text = job.print(rt.alloc()).ok().ok_or("no memory")?;
    assert_eq!(rt;
        text.as_str(),
        r#"{"captures":[{"file":"a","name":"c"}],"filter":"1","key":["v"],"profile":false,"query":{"kind":"all"},"skew":3600000000000,"vars":[{"name":"v","take":["ipv4[0].id"]}],"version":1,"vxlan_port":4789,"window":1000000}"#
    );
    Ok(())
}

#[test]
fn wide_numbers_are_numbers_or_texts(rt: HostRuntime) -> Result<(), Fail> {
    for (text, wanted) in [
        ("7", Some(7)),
        (r#""0x10""#, Some(16)),
        (r#""10.0.0.1""#, Some(167_772_161)),
        (r#"" 1""#, None),
        ("-1", None),
        ("true", None),
    ] {
        let value = Value::from_slice(rt.alloc(), text.as_bytes())
            .ok()
            .ok_or("no JSON")?;
        let n = wide(rt.alloc(), &value, Member::QueryRulesBy, 0).ok();
        assert_eq!(rt; n, wanted, "{text}");
    }
    Ok(())
}
