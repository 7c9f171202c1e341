//! Examples whose reports are known, in pipelines of several shapes.
use super::captures::{Record, file_of_one, files_of, job_of};
use super::runs::{CALM, Ended, Way, draw, run, shape_of};
use ds_base::FileList;
use std::alloc::Global;
use std::process::Abort;
use std::test::Fail;
use summary_spec::Job;

/// The end of a job, the records of its captures, the bytes that the last file lacks, and the lines of the report before
/// that of its end.
type Example = (&'static str, [&'static [Record]; 3], usize, &'static str);

const SECOND: u64 = 1_000_000_000;

/// The query `loop` with the usual window.
const LOOP: &str = r#""window":1000000,"skew":0,"query":{"kind":"loop","hop":"ttl"}}"#;

/// One packet on its way over three points.
const WAY: [&[Record]; 3] = [
    &[(SECOND, 7, 64)],
    &[(SECOND + 10_000, 7, 63)],
    &[(SECOND + 30_000, 7, 62)],
];

/// Four packets, of which the first passes s1 and s3, the second all, the third s1 and s2, and the fourth s2 and s3.
const FOUR: [&[Record]; 3] = [
    &[(SECOND, 1, 64), (2 * SECOND, 2, 64), (3 * SECOND, 3, 64)],
    &[
        (2 * SECOND + 10_000, 2, 63),
        (3 * SECOND + 10_000, 3, 63),
        (4 * SECOND, 4, 64),
    ],
    &[
        (SECOND + 10_000, 1, 63),
        (2 * SECOND + 20_000, 2, 62),
        (4 * SECOND + 10_000, 4, 63),
    ],
];

/// Two copies of a packet.
const TWO: [&[Record]; 3] = [&[(SECOND, 7, 62)], &[(SECOND + 10_000, 7, 64)], &[]];

/// A packet that comes back to its first point.
const BACK: [&[Record]; 3] = [
    &[(SECOND, 7, 64), (SECOND + 20_000, 7, 62)],
    &[(SECOND + 10_000, 7, 63)],
    &[],
];

/// The examples.
const EXAMPLES: [Example; 15] = [
    (
        LOOP,
        WAY,
        0,
        "G 1000000000 s1 0 key=7 n=3 ok\nC s1 records=1 unmatched=0 late=0 accepted=1 whole\nC s2 records=1 unmatched=0 late=0 accepted=1 whole\nC s3 records=1 unmatched=0 late=0 accepted=1 whole\nE groups=1 summaries=3\n",
    ),
    // No record in a capture, and a capture that is cut.
    (
        LOOP,
        [&[(SECOND, 7, 64)], &[], &[(SECOND + 30_000, 7, 62)]],
        0,
        "G 1000000000 s1 0 key=7 n=2 ok\nC s1 records=1 unmatched=0 late=0 accepted=1 whole\nC s2 records=0 unmatched=0 late=0 accepted=0 whole\nC s3 records=1 unmatched=0 late=0 accepted=1 whole\nE groups=1 summaries=2\n",
    ),
    (
        LOOP,
        WAY,
        3,
        "G 1000000000 s1 0 key=7 n=2 ok\nC s1 records=1 unmatched=0 late=0 accepted=1 whole\nC s2 records=1 unmatched=0 late=0 accepted=1 whole\nC s3 records=0 unmatched=0 late=0 accepted=0 cut\nE groups=1 summaries=2\n",
    ),
    // Copies that are a window apart, and farther.
    (
        LOOP,
        [
            &[(SECOND, 7, 64)],
            &[(SECOND + 1_000_000, 7, 63)],
            &[(SECOND + 1_000_001, 7, 62)],
        ],
        0,
        "G 1000000000 s1 0 key=7 n=2 ok\nG 1001000001 s3 0 key=7 n=1 ok\nC s1 records=1 unmatched=0 late=0 accepted=1 whole\nC s2 records=1 unmatched=0 late=0 accepted=1 whole\nC s3 records=1 unmatched=0 late=0 accepted=1 whole\nE groups=2 summaries=3\n",
    ),
    // Equal times are ordered by capture.
    (
        LOOP,
        [&[(SECOND, 9, 64)], &[(SECOND, 8, 64)], &[(SECOND, 7, 64)]],
        0,
        "G 1000000000 s1 0 key=9 n=1 ok\nG 1000000000 s2 0 key=8 n=1 ok\nG 1000000000 s3 0 key=7 n=1 ok\nC s1 records=1 unmatched=0 late=0 accepted=1 whole\nC s2 records=1 unmatched=0 late=0 accepted=1 whole\nC s3 records=1 unmatched=0 late=0 accepted=1 whole\nE groups=3 summaries=3\n",
    ),
    // A record as late as it may be, and one that is too late; then one that has no key.
    (
        r#""window":1000000,"skew":1000,"query":{"kind":"loop","hop":"ttl"}}"#,
        [
            &[
                (SECOND + 2000, 1, 64),
                (SECOND + 1000, 2, 64),
                (SECOND + 999, 3, 64),
            ],
            &[],
            &[],
        ],
        0,
        "G 1000001000 s1 1 key=2 n=1 ok\nG 1000002000 s1 0 key=1 n=1 ok\nC s1 records=3 unmatched=0 late=1 accepted=2 whole\nC s2 records=0 unmatched=0 late=0 accepted=0 whole\nC s3 records=0 unmatched=0 late=0 accepted=0 whole\nE groups=2 summaries=2\n",
    ),
    (
        LOOP,
        [
            &[
                (SECOND, 1, 64),
                (2 * SECOND, 0, 0),
                (SECOND + 500_000_000, 2, 64),
            ],
            &[],
            &[],
        ],
        0,
        "G 1000000000 s1 0 key=1 n=1 ok\nC s1 records=3 unmatched=1 late=1 accepted=1 whole\nC s2 records=0 unmatched=0 late=0 accepted=0 whole\nC s3 records=0 unmatched=0 late=0 accepted=0 whole\nE groups=1 summaries=1\n",
    ),
    // A loop, and two copies at one point that are none.
    (
        LOOP,
        BACK,
        0,
        "G 1000000000 s1 0 key=7 n=3 loop s1 64 62\nC s1 records=2 unmatched=0 late=0 accepted=2 whole\nC s2 records=1 unmatched=0 late=0 accepted=1 whole\nC s3 records=0 unmatched=0 late=0 accepted=0 whole\nE groups=1 summaries=3\n",
    ),
    (
        LOOP,
        [&[(SECOND, 7, 64), (SECOND + 5000, 7, 64)], &[], &[]],
        0,
        "G 1000000000 s1 0 key=7 n=2 ok\nC s1 records=2 unmatched=0 late=0 accepted=2 whole\nC s2 records=0 unmatched=0 late=0 accepted=0 whole\nC s3 records=0 unmatched=0 late=0 accepted=0 whole\nE groups=1 summaries=2\n",
    ),
    // Paths that are not allowed, and a packet that is lost.
    (
        r#""window":1000000,"skew":0,"query":{"kind":"path","allow":["s1 * s3"]}}"#,
        FOUR,
        0,
        "G 1000000000 s1 0 key=1 n=2 ok\nG 2000000000 s1 1 key=2 n=3 ok\nG 3000000000 s1 2 key=3 n=2 path 2\nG 4000000000 s2 2 key=4 n=2 path 0\nC s1 records=3 unmatched=0 late=0 accepted=3 whole\nC s2 records=3 unmatched=0 late=0 accepted=3 whole\nC s3 records=3 unmatched=0 late=0 accepted=3 whole\nE groups=4 summaries=9\n",
    ),
    (
        r#""window":1000000,"skew":0,"query":{"kind":"drop","exits":["s3"]}}"#,
        FOUR,
        0,
        "G 1000000000 s1 0 key=1 n=2 ok\nG 2000000000 s1 1 key=2 n=3 ok\nG 3000000000 s1 2 key=3 n=2 drop s2\nG 4000000000 s2 2 key=4 n=2 ok\nC s1 records=3 unmatched=0 late=0 accepted=3 whole\nC s2 records=3 unmatched=0 late=0 accepted=3 whole\nC s3 records=3 unmatched=0 late=0 accepted=3 whole\nE groups=4 summaries=9\n",
    ),
    // A time to live that is not lowered by one.
    (
        r#""window":1000000,"skew":0,"query":{"kind":"rewrite","from":"s1","to":"s2","rules":[{"var":"ttl","how":"table","rows":[[64,63]]}]}}"#,
        [
            &[(SECOND, 7, 64), (SECOND + 20_000, 7, 64)],
            &[(SECOND + 10_000, 7, 63), (SECOND + 30_000, 7, 62)],
            &[],
        ],
        0,
        "G 1000000000 s1 0 key=7 n=4 rewrite 1 0\nC s1 records=2 unmatched=0 late=0 accepted=2 whole\nC s2 records=2 unmatched=0 late=0 accepted=2 whole\nC s3 records=0 unmatched=0 late=0 accepted=0 whole\nE groups=1 summaries=4\n",
    ),
    // An expression without a value, and one with.
    (
        r#""window":1000000,"skew":0,"query":{"kind":"test","expr":"first(ttl) - last(ttl)"}}"#,
        TWO,
        0,
        "G 1000000000 s1 0 key=7 n=2 undefined\nC s1 records=1 unmatched=0 late=0 accepted=1 whole\nC s2 records=1 unmatched=0 late=0 accepted=1 whole\nC s3 records=0 unmatched=0 late=0 accepted=0 whole\nE groups=1 summaries=2\n",
    ),
    (
        r#""window":1000000,"skew":0,"query":{"kind":"test","expr":"seen(s2) * 10 + count()"}}"#,
        TWO,
        0,
        "G 1000000000 s1 0 key=7 n=2 value 12\nC s1 records=1 unmatched=0 late=0 accepted=1 whole\nC s2 records=1 unmatched=0 late=0 accepted=1 whole\nC s3 records=0 unmatched=0 late=0 accepted=0 whole\nE groups=1 summaries=2\n",
    ),
    // The delays between capture points.
    (
        r#""window":1000000,"profile":true,"skew":0,"query":{"kind":"loop","hop":"ttl"}}"#,
        WAY,
        0,
        "G 1000000000 s1 0 key=7 n=3 ok\nP s1 s2 count=1 sum=10000 least=10000 greatest=10000 classes=14:1\nP s2 s3 count=1 sum=20000 least=20000 greatest=20000 classes=15:1\nC s1 records=1 unmatched=0 late=0 accepted=1 whole\nC s2 records=1 unmatched=0 late=0 accepted=1 whole\nC s3 records=1 unmatched=0 late=0 accepted=1 whole\nE groups=1 summaries=3\n",
    ),
];

// Whether an example's report comes in a pipeline of this shape.
fn is_reported(alloc: Global, example: &Example, way: Way) -> Result<bool, Fail> {
    let (end, captures, cut, report) = *example;
    let job = job_of(alloc, end)?;
    let files = files_of(alloc, captures, cut)?;
    let left = run(alloc, &job, &files, way)?;
    Ok(left.ended == Ended::Done && left.written.as_slice() == report.as_bytes() && left.settled)
}

#[test]
fn known_reports_come_whatever_the_shape(rt: HostRuntime) -> Result<(), Fail> {
    let alloc = rt.alloc();
    for (n, example) in EXAMPLES.iter().enumerate() {
        for many in [1u32, 2, 3, 16] {
            let way = Way {
                shape: shape_of(many, many, many, many),
                seed: draw(n as u64).wrapping_add(u64::from(many)),
                ..CALM
            };
            let comes = is_reported(alloc, example, way)?;
            assert!(rt; comes, "example {n} with {many} of each");
        }
    }
    Ok(())
}

// A job of 64 captures, and their files: one packet that passes them all.
fn wide(alloc: Global) -> Result<(Job, FileList), Fail> {
    let mut text = String::new(alloc);
    let mut files = FileList::new(alloc);
    text.push_str(r#"{"version":1,"captures":["#)?;
    for k in 0..64u32 {
        let comma = if k == 0 { "" } else { "," };
        let capture = format!(in alloc; "{comma}{{\"name\":\"s{k}\",\"file\":\"{k}\"}}")?;
        text.push_str(&capture)?;
        let name = format!(in alloc; "{k}")?;
        let record = (SECOND + 1000 * u64::from(k), 7, (200 - k) as u8);
        let file = file_of_one(alloc, &name, record)?;
        if files.push(file).is_err() {
            return Err(Fail::from("no memory"));
        }
    }
    text.push_str(
        r#"],"vars":[{"name":"id","take":["ipv4[-1].id"]},{"name":"ttl","take":["ipv4[-1].ttl"]}],"key":["id"],"#,
    )?;
    text.push_str(LOOP)?;
    match Job::read(alloc, text.as_bytes()) {
        Ok(job) => Ok((job, files)),
        Err(_) => Err(Fail::from("the job is refused")),
    }
}

// The report of that job.
fn wide_report(alloc: Global) -> Result<String, Fail> {
    let mut text = String::new(alloc);
    text.push_str("G 1000000000 s0 0 key=7 n=64 ok\n")?;
    for k in 0..64u32 {
        let line = format!(in alloc; "C s{k} records=1 unmatched=0 late=0 accepted=1 whole\n")?;
        text.push_str(&line)?;
    }
    text.push_str("E groups=1 summaries=64\n")?;
    Ok(text)
}

#[test]
fn a_packet_passes_64_captures_over_links_of_one_credit(rt: HostRuntime) -> Result<(), Fail> {
    let alloc = rt.alloc();
    let (job, files) = wide(alloc)?;
    let report = wide_report(alloc)?;
    for many in [16u32, 1] {
        let way = Way {
            shape: shape_of(many, many, many, 1),
            choices: 5000,
            in_turn: true,
            ..CALM
        };
        let left = run(alloc, &job, &files, way)?;
        assert_eq!(rt; left.ended, Ended::Done);
        assert!(rt; left.written.as_slice() == report.as_bytes() && left.settled);
    }
    Ok(())
}

#[test]
fn links_carry_what_is_due_on_them(rt: HostRuntime) -> Result<(), Fail> {
    let alloc = rt.alloc();
    let job = job_of(alloc, LOOP)?;
    let ids: [&[Record]; 3] = [
        &[
            (SECOND, 5, 64),
            (SECOND + 1000, 6, 64),
            (SECOND + 2000, 7, 64),
            (SECOND + 3000, 8, 64),
        ],
        &[],
        &[],
    ];
    let files = files_of(alloc, ids, 0)?;
    let way = Way {
        shape: shape_of(1, 4, 2, 16),
        ..CALM
    };
    let left = run(alloc, &job, &files, way)?;
    assert_eq!(rt; left.ended, Ended::Done);
    // An item, three ends of captures, and the end.
    for sent in left.first_sent {
        assert!(rt; sent >= 5);
    }
    Ok(())
}
