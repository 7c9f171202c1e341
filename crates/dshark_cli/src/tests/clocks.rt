//! Captures whose clocks differ: `central` and `run` over jobs of version 2.

use super::captures::Form::{Micro, Nano};
use super::captures::Seen::Bare;
use super::captures::{A, Capture, EMPTY, file};
use super::harness::{CALM, Named, REPORTS, ends_ok, run_over, stops};
use super::reports::{LOOP, NONE, ONE, THREE, report};
use std::alloc::{AllocError, Global};
use std::process::Abort;
use std::test::Fail;
use std::thread::Threads;

/// A job of the captures s1, s2, s3 in the files a, b, c, with this version and skew, and these further
/// members of s1 and of s2.
fn job(
    alloc: Global,
    version: &str,
    skew: &str,
    first: &str,
    second: &str,
) -> Result<Vec<u8>, AllocError> {
    let mut text = Vec::new(alloc);
    for piece in [
        "{\"version\":",
        version,
        ",\"captures\":[{\"name\":\"s1\",\"file\":\"a\"",
        first,
        "},{\"name\":\"s2\",\"file\":\"b\"",
        second,
        "},{\"name\":\"s3\",\"file\":\"c\"}],\"vars\":[{\"name\":\"id\",\"take\":[\"ipv4[-1].id\"]},{\"name\":\"ttl\",\"take\":[\"ipv4[-1].ttl\"]}],\"key\":[\"id\"],\"window\":1000000,\"skew\":",
        skew,
        ",\"query\":",
        LOOP,
        "}",
    ] {
        text.extend_from_slice(piece.as_bytes())?;
    }
    Ok(text)
}

/// The further members of s1 and of s2, and the skew.
type Clocks<'a> = (&'a str, &'a str, &'a str);

/// The job of version 2 with these clocks over these captures ends Ok with these lines, counts and end.
fn answers<R: Threads + Sync + Abort>(
    rt: &R,
    alloc: Global,
    clocks: Clocks<'_>,
    captures: [Capture<'_>; 2],
    lines: &str,
    counts: [&str; 3],
    end: &str,
) -> Result<(), AllocError> {
    let (first, second, skew) = clocks;
    let job = job(alloc, "2", skew, first, second)?;
    let a = file(alloc, captures[0])?;
    let b = file(alloc, captures[1])?;
    let c = file(alloc, EMPTY)?;
    let report = report(alloc, lines, counts, end)?;
    let named: [Named<'_>; 4] = [
        ("j", job.as_slice()),
        ("a", a.as_slice()),
        ("b", b.as_slice()),
        ("c", c.as_slice()),
    ];
    for line in REPORTS {
        let left = run_over(rt, alloc, line, &named, CALM)?;
        ends_ok(rt, &left, report.as_slice());
    }
    Ok(())
}

#[test]
fn times_and_lateness_go_by_the_clock_of_the_capture(rt: HostRuntime) -> Result<(), Fail> {
    let alloc = rt.alloc();
    let last: Capture<'static> = (Micro, &[(1, 1000, Bare(7, 63))]);
    // The window is as long as the two copies are apart.
    let apart = "G 1000000000 s1 0 key=7 n=1 ok\nG 1001000001 s2 0 key=7 n=1 ok\n";
    let together = "G 1000000000 s1 0 key=7 n=2 ok\n";
    let two = "groups=2 summaries=2";
    let one = "groups=1 summaries=2";
    for (second, lines, end) in [
        (",\"offset\":1", apart, two),
        (",\"offset\":0", together, one),
        (",\"offset\":-1", together, one),
    ] {
        answers(
            &rt,
            alloc,
            ("", second, "0"),
            [A, last],
            lines,
            [ONE, ONE, NONE],
            end,
        )?;
    }
    let falling: Capture<'static> = (
        Nano,
        &[
            (1, 2000, Bare(1, 64)),
            (1, 1000, Bare(2, 64)),
            (1, 999, Bare(3, 64)),
        ],
    );
    let kept =
        "G 1000000999 s1 2 key=3 n=1 ok\nG 1000001000 s1 1 key=2 n=1 ok\nG 1000002000 s1 0 key=1 n=1 ok\n";
    answers(
        &rt,
        alloc,
        (",\"skew\":1001", "", "1000"),
        [falling, EMPTY],
        kept,
        [THREE, NONE, NONE],
        "groups=3 summaries=3",
    )?;
    // No time is below 0.
    answers(
        &rt,
        alloc,
        (",\"offset\":-3600000000000", "", "0"),
        [A, EMPTY],
        "G 0 s1 0 key=7 n=1 ok\n",
        [ONE, NONE, NONE],
        "groups=1 summaries=1",
    )?;
    Ok(())
}

#[test]
fn clocks_out_of_their_limits_are_refused(rt: HostRuntime) -> Result<(), Fail> {
    let alloc = rt.alloc();
    for (version, second, what) in [
        (
            "2",
            ",\"offset\":3600000000001",
            "captures.offset[1]: limit 3600000000001",
        ),
        (
            "2",
            ",\"offset\":-3600000000001",
            "captures.offset[1]: limit 3600000000001",
        ),
        ("1", ",\"offset\":0", "captures[1]: stray"),
        ("4", "", "version[0]: limit 4"),
    ] {
        let job = job(alloc, version, "0", "", second)?;
        let left = run_over(&rt, alloc, "central j", &[("j", job.as_slice())], CALM)?;
        let line = format!(in alloc; "dshark: job: {what}\n")?;
        stops(&rt, &left, 1, line.as_str(), b"");
    }
    Ok(())
}
