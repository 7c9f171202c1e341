//! The commands `central` and `run`: the report of a job over its three captures.

use super::captures::Form::{BigNano, Micro, Nano};
use super::captures::Seen::{Arp, Bare, Gre, Vxlan};
use super::captures::{A, B, C, Capture, EMPTY, file};
use super::harness::{CALM, Named, REPORTS, ends_ok, run_over};
use super::reports::{END, LOOP, NONE, ONE, PACKET_LINE, THREE, TWO, job, report};
use std::alloc::{AllocError, Global};
use std::process::Abort;
use std::test::Fail;
use std::thread::Threads;

/// A job that asks for the value of this expression.
fn testing(alloc: Global, expression: &str) -> Result<Vec<u8>, AllocError> {
    let query = format!(in alloc; "{{\"kind\":\"test\",\"expr\":\"{expression}\"}}")?;
    job(alloc, "0", query.as_str(), "")
}

/// The job over these files ends Ok with this report.
fn writes<R: Threads + Sync + Abort>(
    rt: &R,
    alloc: Global,
    files: [&[u8]; 4],
    report: &[u8],
) -> Result<(), AllocError> {
    let [job, a, b, c] = files;
    let named: [Named<'_>; 4] = [("j", job), ("a", a), ("b", b), ("c", c)];
    for line in REPORTS {
        let left = run_over(rt, alloc, line, &named, CALM)?;
        ends_ok(rt, &left, report);
    }
    Ok(())
}

/// The job with this query over these captures ends Ok with these lines, counts and end.
fn answers<R: Threads + Sync + Abort>(
    rt: &R,
    alloc: Global,
    job: &[u8],
    captures: [Capture<'_>; 3],
    lines: &str,
    counts: [&str; 3],
    end: &str,
) -> Result<(), AllocError> {
    let a = file(alloc, captures[0])?;
    let b = file(alloc, captures[1])?;
    let c = file(alloc, captures[2])?;
    let report = report(alloc, lines, counts, end)?;
    writes(
        rt,
        alloc,
        [job, a.as_slice(), b.as_slice(), c.as_slice()],
        report.as_slice(),
    )
}

#[test]
fn copies_are_gathered_whatever_their_form(rt: HostRuntime) -> Result<(), Fail> {
    let alloc = rt.alloc();
    let plain = job(alloc, "0", LOOP, "")?;
    let big: Capture<'static> = (BigNano, &[(1, 0, Bare(7, 64))]);
    let later: Capture<'static> = (BigNano, &[(1, 10000, Bare(7, 63))]);
    let outer: Capture<'static> = (Micro, &[(1, 0, Vxlan(7, 64, 100))]);
    let keyed: Capture<'static> = (Micro, &[(1, 10, Gre(7, 63, 5))]);
    for captures in [[A, B, C], [big, later, C], [outer, keyed, C]] {
        answers(
            &rt,
            alloc,
            plain.as_slice(),
            captures,
            PACKET_LINE,
            [ONE, ONE, ONE],
            END,
        )?;
    }
    let two = "G 1000000000 s1 0 key=7 n=2 ok\n";
    answers(
        &rt,
        alloc,
        plain.as_slice(),
        [A, EMPTY, C],
        two,
        [ONE, NONE, ONE],
        "groups=1 summaries=2",
    )?;
    let profiled = job(alloc, "0", LOOP, "\"profile\":true,")?;
    let delays =
        "G 1000000000 s1 0 key=7 n=3 ok\nP s1 s2 count=1 sum=10000 least=10000 greatest=10000 classes=14:1\nP s2 s3 count=1 sum=20000 least=20000 greatest=20000 classes=15:1\n";
    answers(
        &rt,
        alloc,
        profiled.as_slice(),
        [A, B, C],
        delays,
        [ONE, ONE, ONE],
        END,
    )?;
    Ok(())
}

#[test]
fn a_cut_capture_is_reported_without_its_last_record(rt: HostRuntime) -> Result<(), Fail> {
    let alloc = rt.alloc();
    let plain = job(alloc, "0", LOOP, "")?;
    let a = file(alloc, A)?;
    let b = file(alloc, B)?;
    let mut c = file(alloc, C)?;
    c.truncate(81);
    let cut = "records=0 unmatched=0 late=0 accepted=0 cut";
    let two = "G 1000000000 s1 0 key=7 n=2 ok\n";
    let report = report(alloc, two, [ONE, ONE, cut], "groups=1 summaries=2")?;
    writes(
        &rt,
        alloc,
        [plain.as_slice(), a.as_slice(), b.as_slice(), c.as_slice()],
        report.as_slice(),
    )?;
    Ok(())
}

#[test]
fn groups_go_by_window_and_stamp_and_late_records_are_counted(rt: HostRuntime) -> Result<(), Fail> {
    let alloc = rt.alloc();
    let plain = job(alloc, "0", LOOP, "")?;
    let past: Capture<'static> = (Nano, &[(1, 1_000_001, Bare(7, 62))]);
    let last: Capture<'static> = (Micro, &[(1, 1000, Bare(7, 63))]);
    let apart = "G 1000000000 s1 0 key=7 n=2 ok\nG 1001000001 s3 0 key=7 n=1 ok\n";
    answers(
        &rt,
        alloc,
        plain.as_slice(),
        [A, last, past],
        apart,
        [ONE, ONE, ONE],
        "groups=2 summaries=3",
    )?;
    // Equal times are ordered by capture.
    let nine: Capture<'static> = (Micro, &[(1, 0, Bare(9, 64))]);
    let eight: Capture<'static> = (Micro, &[(1, 0, Bare(8, 64))]);
    let together =
        "G 1000000000 s1 0 key=9 n=1 ok\nG 1000000000 s2 0 key=8 n=1 ok\nG 1000000000 s3 0 key=7 n=1 ok\n";
    answers(
        &rt,
        alloc,
        plain.as_slice(),
        [nine, eight, A],
        together,
        [ONE, ONE, ONE],
        "groups=3 summaries=3",
    )?;
    let skewed = job(alloc, "1000", LOOP, "")?;
    let falling: Capture<'static> = (
        Nano,
        &[
            (1, 2000, Bare(1, 64)),
            (1, 1000, Bare(2, 64)),
            (1, 999, Bare(3, 64)),
        ],
    );
    let kept = "G 1000001000 s1 1 key=2 n=1 ok\nG 1000002000 s1 0 key=1 n=1 ok\n";
    let late = "records=3 unmatched=0 late=1 accepted=2 whole";
    answers(
        &rt,
        alloc,
        skewed.as_slice(),
        [falling, EMPTY, EMPTY],
        kept,
        [late, NONE, NONE],
        "groups=2 summaries=2",
    )?;
    let unmatched: Capture<'static> = (
        Micro,
        &[(1, 0, Bare(1, 64)), (2, 0, Arp), (1, 500_000, Bare(2, 64))],
    );
    let first = "G 1000000000 s1 0 key=1 n=1 ok\n";
    let fared = "records=3 unmatched=1 late=1 accepted=1 whole";
    answers(
        &rt,
        alloc,
        plain.as_slice(),
        [unmatched, EMPTY, EMPTY],
        first,
        [fared, NONE, NONE],
        "groups=1 summaries=1",
    )?;
    Ok(())
}

#[test]
fn each_query_has_its_verdicts(rt: HostRuntime) -> Result<(), Fail> {
    let alloc = rt.alloc();
    let plain = job(alloc, "0", LOOP, "")?;
    let back: Capture<'static> = (Micro, &[(1, 0, Bare(7, 64)), (1, 20, Bare(7, 62))]);
    let looped = "G 1000000000 s1 0 key=7 n=3 loop s1 64 62\n";
    answers(
        &rt,
        alloc,
        plain.as_slice(),
        [back, B, EMPTY],
        looped,
        [TWO, ONE, NONE],
        END,
    )?;
    let same: Capture<'static> = (Micro, &[(1, 0, Bare(7, 64)), (1, 5, Bare(7, 64))]);
    let fine = "G 1000000000 s1 0 key=7 n=2 ok\n";
    answers(
        &rt,
        alloc,
        plain.as_slice(),
        [same, EMPTY, EMPTY],
        fine,
        [TWO, NONE, NONE],
        "groups=1 summaries=2",
    )?;

    let ways: [Capture<'static>; 3] = [
        (
            Micro,
            &[
                (1, 0, Bare(1, 64)),
                (2, 0, Bare(2, 64)),
                (3, 0, Bare(3, 64)),
            ],
        ),
        (
            Micro,
            &[
                (2, 10, Bare(2, 63)),
                (3, 10, Bare(3, 63)),
                (4, 0, Bare(4, 64)),
            ],
        ),
        (
            Micro,
            &[
                (1, 10, Bare(1, 63)),
                (2, 20, Bare(2, 62)),
                (4, 10, Bare(4, 63)),
            ],
        ),
    ];
    let end = "groups=4 summaries=9";
    let path = job(
        alloc,
        "0",
        "{\"kind\":\"path\",\"allow\":[\"s1 * s3\"]}",
        "",
    )?;
    let strayed =
        "G 1000000000 s1 0 key=1 n=2 ok\nG 2000000000 s1 1 key=2 n=3 ok\nG 3000000000 s1 2 key=3 n=2 path 2\nG 4000000000 s2 2 key=4 n=2 path 0\n";
    answers(
        &rt,
        alloc,
        path.as_slice(),
        ways,
        strayed,
        [THREE, THREE, THREE],
        end,
    )?;
    let drop = job(alloc, "0", "{\"kind\":\"drop\",\"exits\":[\"s3\"]}", "")?;
    let lost =
        "G 1000000000 s1 0 key=1 n=2 ok\nG 2000000000 s1 1 key=2 n=3 ok\nG 3000000000 s1 2 key=3 n=2 drop s2\nG 4000000000 s2 2 key=4 n=2 ok\n";
    answers(
        &rt,
        alloc,
        drop.as_slice(),
        ways,
        lost,
        [THREE, THREE, THREE],
        end,
    )?;

    let rewrite = job(
        alloc,
        "0",
        "{\"kind\":\"rewrite\",\"from\":\"s1\",\"to\":\"s2\",\"rules\":[{\"var\":\"ttl\",\"how\":\"table\",\"rows\":[[64,63]]}]}",
        "",
    )?;
    let before: Capture<'static> = (Micro, &[(1, 0, Bare(7, 64)), (1, 20, Bare(7, 64))]);
    let after: Capture<'static> = (Micro, &[(1, 10, Bare(7, 63)), (1, 30, Bare(7, 62))]);
    let broken = "G 1000000000 s1 0 key=7 n=4 rewrite 1 0\n";
    answers(
        &rt,
        alloc,
        rewrite.as_slice(),
        [before, after, EMPTY],
        broken,
        [TWO, TWO, NONE],
        "groups=1 summaries=4",
    )?;
    Ok(())
}

#[test]
fn an_expression_has_its_value_or_none(rt: HostRuntime) -> Result<(), Fail> {
    let alloc = rt.alloc();
    let low: Capture<'static> = (Micro, &[(1, 0, Bare(7, 62))]);
    let high: Capture<'static> = (Micro, &[(1, 10, Bare(7, 64))]);
    for (expression, lines) in [
        (
            "first(ttl) - last(ttl)",
            "G 1000000000 s1 0 key=7 n=2 undefined\n",
        ),
        ("at(s3, ttl)", "G 1000000000 s1 0 key=7 n=2 undefined\n"),
        (
            "seen(s2) * 10 + count()",
            "G 1000000000 s1 0 key=7 n=2 value 12\n",
        ),
        (
            "0xffffffffffffffffffffffffffffffff",
            "G 1000000000 s1 0 key=7 n=2 value 340282366920938463463374607431768211455\n",
        ),
        (
            "0xffffffffffffffffffffffffffffffff + 1",
            "G 1000000000 s1 0 key=7 n=2 undefined\n",
        ),
    ] {
        let tested = testing(alloc, expression)?;
        answers(
            &rt,
            alloc,
            tested.as_slice(),
            [low, high, EMPTY],
            lines,
            [ONE, ONE, NONE],
            "groups=1 summaries=2",
        )?;
    }
    Ok(())
}
