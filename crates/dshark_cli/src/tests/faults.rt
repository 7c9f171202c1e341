//! Every command over files that are missing, malformed or fail: the fault, its line and the status, and
//! what was written by then.

use super::captures::{A, B, C, HEADER, file, too_long};
use super::check::{CANONICAL, plain_job};
use super::harness::{CALM, Named, Outside, run, run_over, stops};
use super::reports::{END, LOOP, ONE, PACKET_LINE, job, report};
use super::stack::{LINES, tunnels};
use ds_base::PcapFault;
use run_faults::RunFault;
use std::alloc::{AllocError, Global};
use std::process::Abort;
use std::test::Fail;
use std::thread::Threads;

const COUNT: &str = "count ipv4[0].id 1000000 a";

const COUNTED: &str =
    "G 1000000000 c 0 key=7 n=1 ok\nC c records=1 unmatched=0 late=0 accepted=1 whole\nE groups=1 summaries=1\n";

/// The lines of `stack` for three plain packets.
const THREE_LINES: &str =
    "0 1000000000 eth[0..14] ipv4[14..34] udp[34..42]\n1 1000000000 eth[0..14] ipv4[14..34] udp[34..42]\n2 1000000000 eth[0..14] ipv4[14..34] udp[34..42]\n";

#[test]
fn words_are_refused_at_their_place(rt: HostRuntime) -> Result<(), Fail> {
    let alloc = rt.alloc();
    for (line, place, text) in [
        ("count ipv4[0].nosuch 1 a", 1, "dshark: usage: word 1\n"),
        ("stack a --port 0", 3, "dshark: usage: word 3\n"),
        (
            "stack a --field ipv4[0].nosuch",
            3,
            "dshark: usage: word 3\n",
        ),
        ("stack", 1, "dshark: usage: word 1\n"),
    ] {
        let left = run(&rt, alloc, line, &HEADER, CALM)?;
        assert_eq!(rt; left.fault, Some(RunFault::Usage { place }));
        stops(&rt, &left, 1, text, b"");
    }
    let version = run(&rt, alloc, "--version", &HEADER, CALM)?;
    stops(&rt, &version, 0, "", b"dshark 0.1.0\n");
    let help = run(&rt, alloc, "--help", &HEADER, CALM)?;
    assert!(rt; help.status == 0 && help.out.as_slice().starts_with(b"usage: dshark"));
    Ok(())
}

#[test]
fn a_malformed_capture_is_named_with_its_place(rt: HostRuntime) -> Result<(), Fail> {
    let alloc = rt.alloc();
    let long = too_long(alloc)?;
    let rows: [(&str, &[u8], &str, &str); 4] = [
        (
            COUNT,
            &HEADER[..23],
            "dshark: capture c: byte 23: short header\n",
            "",
        ),
        (
            COUNT,
            long.as_slice(),
            "dshark: capture c: byte 206: record 3 length 262145\n",
            "",
        ),
        (
            "stack a",
            long.as_slice(),
            "dshark: capture c: byte 206: record 3 length 262145\n",
            THREE_LINES,
        ),
        (
            "stack a",
            &HEADER[..23],
            "dshark: capture c: byte 23: short header\n",
            "",
        ),
    ];
    for (line, bytes, err, out) in rows {
        let left = run(&rt, alloc, line, bytes, CALM)?;
        stops(&rt, &left, 2, err, out.as_bytes());
    }
    // Of a job, `central` names the first one.
    let plain = job(alloc, "0", LOOP, "")?;
    let j = plain.as_slice();
    let a = file(alloc, A)?;
    let b = file(alloc, B)?;
    let c = file(alloc, C)?;
    let (a, b, c) = (a.as_slice(), b.as_slice(), c.as_slice());
    let half = &HEADER[..23];
    let line = "dshark: capture s1: byte 0: short header\n";
    names_capture(&rt, alloc, "central j", j, &[], b, c, short(0, 0), line)?;
    names_capture(&rt, alloc, "run j", j, &[], b, c, short(0, 0), line)?;
    let line = "dshark: capture s1: byte 23: short header\n";
    names_capture(&rt, alloc, "central j", j, half, b, c, short(0, 23), line)?;
    names_capture(&rt, alloc, "run j", j, half, b, c, short(0, 23), line)?;
    let line = "dshark: capture s3: byte 0: short header\n";
    names_capture(&rt, alloc, "central j", j, a, b, &[], short(2, 0), line)?;
    names_capture(&rt, alloc, "run j", j, a, b, &[], short(2, 0), line)?;
    let line = "dshark: capture s2: byte 23: short header\n";
    names_capture(&rt, alloc, "central j", j, a, half, &[], short(1, 23), line)?;
    let fault = RunFault::Malformed {
        capture: 0,
        at: 206,
        what: PcapFault::TooLong {
            number: 3,
            len: 262_145,
        },
    };
    let line = "dshark: capture s1: byte 206: record 3 length 262145\n";
    names_capture(
        &rt,
        alloc,
        "central j",
        j,
        long.as_slice(),
        b,
        c,
        fault,
        line,
    )?;
    names_capture(&rt, alloc, "run j", j, long.as_slice(), b, c, fault, line)?;
    Ok(())
}

/// That a capture of this number ends inside its header.
fn short(capture: u32, len: u64) -> RunFault {
    RunFault::Malformed {
        capture,
        at: len,
        what: PcapFault::ShortHeader { len },
    }
}

/// By this command the job over these three captures ends with this fault and this line, and writes nothing.
fn names_capture<'a, R: Threads + Sync + Abort>(
    rt: &R,
    alloc: Global,
    command: &str,
    j: &'a [u8],
    a: &'a [u8],
    b: &'a [u8],
    c: &'a [u8],
    fault: RunFault,
    line: &str,
) -> Result<(), AllocError> {
    let named: [Named<'a>; 4] = [("j", j), ("a", a), ("b", b), ("c", c)];
    let left = run_over(rt, alloc, command, &named, CALM)?;
    assert_eq!(rt; left.fault, Some(fault));
    stops(rt, &left, 2, line, b"");
    Ok(())
}

#[test]
fn a_missing_file_is_named(rt: HostRuntime) -> Result<(), Fail> {
    let alloc = rt.alloc();
    let plain = job(alloc, "0", LOOP, "")?;
    let b = file(alloc, B)?;
    // All files are opened before a capture, here an empty one, is read.
    let files: [Named<'_>; 3] = [("j", plain.as_slice()), ("a", &[]), ("b", b.as_slice())];
    for (line, number, text) in [
        ("central j", 3, "dshark: read: file 3\n"),
        ("central d", 0, "dshark: read: file 0\n"),
        ("run j", 3, "dshark: read: file 3\n"),
        ("run d", 0, "dshark: read: file 0\n"),
        ("check d", 0, "dshark: read: file 0\n"),
        ("count ipv4[0].id 1 d", 0, "dshark: read: file 0\n"),
        ("stack d", 0, "dshark: read: file 0\n"),
    ] {
        let left = run_over(&rt, alloc, line, &files, CALM)?;
        assert_eq!(rt; left.fault, Some(RunFault::ReadFault { file: number }));
        stops(&rt, &left, 3, text, b"");
    }
    Ok(())
}

#[test]
fn each_failed_read_and_write_is_told(rt: HostRuntime) -> Result<(), Fail> {
    let alloc = rt.alloc();
    let plain = job(alloc, "0", LOOP, "")?;
    let a = file(alloc, A)?;
    let b = file(alloc, B)?;
    let c = file(alloc, C)?;
    let checked = plain_job(alloc)?;
    let packets = tunnels(alloc)?;
    let whole = report(alloc, PACKET_LINE, [ONE, ONE, ONE], END)?;
    let files: [Named<'_>; 6] = [
        ("j", plain.as_slice()),
        ("a", a.as_slice()),
        ("b", b.as_slice()),
        ("c", c.as_slice()),
        ("k", checked.as_slice()),
        ("p", packets.as_slice()),
    ];
    // A command, the file of which each read fails in turn by its number in the folder and in the fault,
    // how many bytes it has, and what the command owes.
    for (line, failing_file, number, len, due) in [
        (COUNT, 1, 0, a.len(), COUNTED.as_bytes()),
        ("check k", 4, 0, checked.len(), CANONICAL.as_bytes()),
        ("stack p", 5, 0, packets.len(), LINES.as_bytes()),
        ("central j", 0, 0, plain.len(), whole.as_slice()),
        ("central j", 1, 1, a.len(), whole.as_slice()),
        ("central j", 2, 2, b.len(), whole.as_slice()),
        ("central j", 3, 3, c.len(), whole.as_slice()),
    ] {
        // Each read has its turn, up to the one that finds the end.
        let reads = len.div_ceil(16) + 1;
        for k in 0..=reads {
            let outside = Outside {
                read: 16,
                failing_file,
                failing_read: u32::try_from(k).ok(),
                ..CALM
            };
            let left = run_over(&rt, alloc, line, &files, outside)?;
            assert!(rt; due.starts_with(left.out.as_slice()));
            if k < reads {
                assert_eq!(rt; left.fault, Some(RunFault::ReadFault { file: number }));
                // `stack` writes while it reads: its first record is whole after nine reads.
                assert!(rt; left.out.is_empty() == (failing_file != 5 || k < 9));
            } else {
                assert!(rt; left.status == 0 && left.out.as_slice() == due);
            }
        }
        let writes = due.len().div_ceil(10);
        for k in 0..=writes {
            let outside = Outside {
                write: 10,
                failing_write: u32::try_from(k).ok(),
                ..CALM
            };
            let left = run_over(&rt, alloc, line, &files, outside)?;
            assert!(rt; due.starts_with(left.out.as_slice()));
            if k < writes {
                assert!(rt; left.status == 4);
                assert!(rt; left.out.len() / 10 == k && left.out.len() % 10 == 0);
                assert!(rt; left.err.as_slice() == b"dshark: write\n".as_slice());
            } else {
                assert!(rt; left.status == 0 && left.out.as_slice() == due);
            }
        }
    }
    Ok(())
}

#[test]
fn a_failing_standard_error_changes_neither_status_nor_fault(rt: HostRuntime) -> Result<(), Fail> {
    let alloc = rt.alloc();
    let line = b"dshark: capture c: byte 23: short header\n".as_slice();
    // Six writes of seven bytes.
    for k in 0..=6 {
        let outside = Outside {
            failing_complaint: Some(k),
            ..CALM
        };
        let left = run(&rt, alloc, COUNT, &HEADER[..23], outside)?;
        let what = PcapFault::ShortHeader { len: 23 };
        assert_eq!(rt;
            left.fault,
            Some(RunFault::Malformed {
                capture: 0,
                at: 23,
                what
            })
        );
        assert!(rt;
            left.status == 2 && left.out.is_empty() && line.starts_with(left.err.as_slice())
        );
        assert!(rt; left.err.len() == if k < 6 { 7 * k as usize } else { line.len() });
    }
    Ok(())
}
