//! The first fault of a declaration, one row a member; tests/jobs/refused.txt has the others.

use crate::tests::{HOP, LOOPS, replaced};
use crate::{Job, JobFault, JobWhat, Member, ReadJobFault};
use query_lang::QueryWhat;
use std::alloc::Global;
use std::test::Fail;

// The job from its version to its second capture.
const UP_TO_B: &str =
    r#""version":1,"captures":[{"name":"s1","file":"a"},{"name":"s2","file":"b"}"#;

// A part of the job, what stands in its place, and the fault: the member, the index and what.
static FAULTS: [(&str, &str, Member, u32, JobWhat); 36] = [
    (LOOPS, "{", Member::Whole, 0, JobWhat::NotJson),
    (
        r#""skew""#,
        r#""skews":1,"skew""#,
        Member::Whole,
        0,
        JobWhat::Stray,
    ),
    (
        r#""version":1,"#,
        r#""version":4,"#,
        Member::Version,
        0,
        JobWhat::Limit { value: 4 },
    ),
    (
        r#""skew""#,
        r#""vxlan_port":null,"skew""#,
        Member::VxlanPort,
        0,
        JobWhat::WrongKind,
    ),
    (
        r#"{"name":"s2","file":"b"}"#,
        r#"{"file":"b","port":1}"#,
        Member::Captures,
        1,
        JobWhat::Stray,
    ),
    (
        r#""s2""#,
        r#""s1""#,
        Member::CapturesName,
        1,
        JobWhat::Twice,
    ),
    (
        r#""file":"c""#,
        r#""file":"a\u0000""#,
        Member::CapturesFile,
        2,
        JobWhat::BadName,
    ),
    (
        r#""file":"b"}"#,
        r#""file":"b","offset":0}"#,
        Member::Captures,
        1,
        JobWhat::Stray,
    ),
    (
        UP_TO_B,
        r#""version":2,"captures":[{"name":"s1","file":"a","offset":3600000000000},{"name":"s2","file":"b","offset":-3600000000001,"skew":""}"#,
        Member::CapturesOffset,
        1,
        JobWhat::Limit {
            value: 3_600_000_000_001,
        },
    ),
    (
        UP_TO_B,
        r#""version":2,"captures":[{"name":"s1","file":"a"},{"name":"s2","file":"b","offset":9223372036854775808}"#,
        Member::CapturesOffset,
        1,
        JobWhat::WrongKind,
    ),
    (
        UP_TO_B,
        r#""version":2,"captures":[{"name":"s1","file":"a","skew":3600000000000},{"name":"s2","file":"b","skew":3600000000001}"#,
        Member::CapturesSkew,
        1,
        JobWhat::Limit {
            value: 3_600_000_000_001,
        },
    ),
    (
        UP_TO_B,
        r#""version":2,"captures":[{"name":"s1","file":"a","skew":-1},{"name":"s2","file":"b"}"#,
        Member::CapturesSkew,
        0,
        JobWhat::WrongKind,
    ),
    (
        UP_TO_B,
        r#""version":2,"captures":[{"name":"s1","file":"a"},{"name":"s2","file":"b","interface":0}"#,
        Member::Captures,
        1,
        JobWhat::Stray,
    ),
    (
        UP_TO_B,
        r#""version":3,"captures":[{"name":"s1","file":"a","interface":65535},{"name":"s2","file":"b","interface":65536}"#,
        Member::CapturesInterface,
        1,
        JobWhat::Limit { value: 65_536 },
    ),
    (
        UP_TO_B,
        r#""version":3,"captures":[{"name":"s1","file":"a","skew":3600000000001,"interface":"eth0"},{"name":"s2","file":"b"}"#,
        Member::CapturesSkew,
        0,
        JobWhat::Limit {
            value: 3_600_000_000_001,
        },
    ),
    (
        r#"{"name":"ttl","take":["ipv4[-1].ttl"]}"#,
        r#""ttl""#,
        Member::Vars,
        1,
        JobWhat::WrongKind,
    ),
    (
        r#"{"name":"id""#,
        r#"{"name":"time""#,
        Member::VarsName,
        0,
        JobWhat::BadName,
    ),
    (
        r#"["ipv4[-1].ttl"]"#,
        r#"["eth[0].src","ipv4[16].ttl"]"#,
        Member::VarsTake,
        1,
        JobWhat::Field,
    ),
    (
        r#""skew""#,
        r#""filter":"1<2<3","skew""#,
        Member::Filter,
        0,
        JobWhat::Expression {
            at: 3,
            what: QueryWhat::Syntax,
        },
    ),
    (
        r#"["id"],"window":1000000"#,
        r#"["id","x"],"window":3600000000001"#,
        Member::Key,
        1,
        JobWhat::Unknown,
    ),
    (
        r#""window":1000000"#,
        r#""window":1e6"#,
        Member::Window,
        0,
        JobWhat::WrongKind,
    ),
    (
        r#""skew":0"#,
        r#""skew":3600000000001"#,
        Member::Skew,
        0,
        JobWhat::Limit {
            value: 3_600_000_000_001,
        },
    ),
    (
        r#""skew""#,
        r#""profile":0,"skew""#,
        Member::Profile,
        0,
        JobWhat::WrongKind,
    ),
    (
        HOP,
        r#"{"kind":"all","hop":"ttl"}"#,
        Member::Query,
        0,
        JobWhat::Stray,
    ),
    (
        HOP,
        r#"{"kind":"loops","hops":1}"#,
        Member::QueryKind,
        0,
        JobWhat::Unknown,
    ),
    (
        HOP,
        r#"{"kind":"loop","hop":"s1"}"#,
        Member::QueryHop,
        0,
        JobWhat::Unknown,
    ),
    (
        HOP,
        r#"{"kind":"drop","exits":["s2","s1","s2"]}"#,
        Member::QueryExits,
        2,
        JobWhat::Twice,
    ),
    (
        HOP,
        r#"{"kind":"path","allow":["s1"," \t"]}"#,
        Member::QueryAllow,
        1,
        JobWhat::Limit { value: 0 },
    ),
    (
        HOP,
        r#"{"kind":"rewrite","from":"s4","rules":[]}"#,
        Member::QueryFrom,
        0,
        JobWhat::Unknown,
    ),
    (
        HOP,
        r#"{"kind":"rewrite","from":"s1","rules":[]}"#,
        Member::QueryTo,
        0,
        JobWhat::Missing,
    ),
    (
        HOP,
        r#"{"kind":"rewrite","from":"s1","to":"s2","rules":[{"var":"id","how":"same","by":1}]}"#,
        Member::QueryRules,
        0,
        JobWhat::Stray,
    ),
    (
        HOP,
        r#"{"kind":"rewrite","from":"s1","to":"s2","rules":[{"var":"id","how":"more","by":1}]}"#,
        Member::QueryRulesHow,
        0,
        JobWhat::Unknown,
    ),
    (
        HOP,
        r#"{"kind":"rewrite","from":"s1","to":"s2","rules":[{"how":"same"}]}"#,
        Member::QueryRulesVar,
        0,
        JobWhat::Missing,
    ),
    (
        HOP,
        r#"{"kind":"rewrite","from":"s1","to":"s2","rules":[{"var":"id","how":"less","by":" 1"}]}"#,
        Member::QueryRulesBy,
        0,
        JobWhat::WrongKind,
    ),
    (
        HOP,
        r#"{"kind":"rewrite","from":"s1","to":"s2","rules":[{"var":"id","how":"table","rows":[[1,2],[1,2,3]]}]}"#,
        Member::QueryRulesRows,
        0,
        JobWhat::WrongKind,
    ),
    (
        HOP,
        r#"{"kind":"test","expr":"id"}"#,
        Member::QueryExpr,
        0,
        JobWhat::Expression {
            at: 0,
            what: QueryWhat::Name,
        },
    ),
];

fn fault_of(alloc: Global, text: &str) -> Option<JobFault> {
    match Job::read(alloc, text.as_bytes()) {
        Err(ReadJobFault::Bad(fault)) => Some(fault),
        _ => None,
    }
}

#[test]
fn each_fault_is_named_in_its_place(rt: HostRuntime) -> Result<(), Fail> {
    for (part, by, member, index, what) in &FAULTS {
        let text = replaced(rt.alloc(), LOOPS, part, by)?;
        let expected = JobFault {
            member: *member,
            index: *index,
            what: *what,
        };
        assert_eq!(rt;
            fault_of(rt.alloc(), text.as_str()),
            Some(expected),
            "{text}"
        );
    }
    Ok(())
}

#[test]
fn more_than_a_mebibyte_is_refused(rt: HostRuntime) -> Result<(), Fail> {
    let mut text = String::new(rt.alloc());
    for _ in 0..1_048_577 {
        text.push_str(" ")?;
    }
    let expected = JobFault {
        member: Member::Whole,
        index: 0,
        what: JobWhat::Limit { value: 1_048_577 },
    };
    assert_eq!(rt; fault_of(rt.alloc(), text.as_str()), Some(expected));
    Ok(())
}
