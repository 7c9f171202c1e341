//! Jobs and captures that are drawn from a seed.
use super::captures::{Record, files_of, job_of, report_of};
use super::runs::{CALM, Ended, Way, draw, run, shape_of};
use std::alloc::{AllocError, Global};
use std::process::Abort;
use std::test::Fail;

/// How the jobs go on.
const MEMBERS: [&str; 6] = [
    r#""window":30,"skew":0,"query":{"kind":"loop","hop":"ttl"}}"#,
    r#""window":100,"skew":20,"query":{"kind":"drop","exits":["s3"]}}"#,
    r#""window":0,"skew":50,"query":{"kind":"all"}}"#,
    r#""window":60,"profile":true,"skew":50,"query":{"kind":"path","allow":["s1 * s3"]}}"#,
    r#""window":1000,"profile":true,"skew":5,"query":{"kind":"test","expr":"first(ttl) - last(ttl)"}}"#,
    r#""window":100,"skew":1000,"filter":"id != 3","query":{"kind":"loop","hop":"ttl"}}"#,
];

// At most 15 records, whose times rise and sometimes fall, with four identifications and now and then none.
fn records(alloc: Global, seed: u64) -> Result<Vec<Record>, AllocError> {
    let mut records = Vec::new(alloc);
    let mut drawn = draw(seed);
    let many = drawn >> 60;
    let mut time = 1_000_000_000u64;
    for _ in 0..many {
        drawn = draw(drawn);
        time = time
            .saturating_add((drawn >> 40) % 64)
            .saturating_sub(16)
            .max(1_000_000_000);
        records.push((
            time,
            ((drawn >> 33) % 5) as u8,
            60 + ((drawn >> 50) % 5) as u8,
        ))?;
    }
    Ok(records)
}

// A number from 1 to 3.
fn one_to_three(drawn: u64) -> u32 {
    1 + (drawn % 3) as u32
}

// Whether the run of this number has the report of the plain program at its end, and a front of it after some turns.
fn is_as_central(alloc: Global, n: u64) -> Result<bool, Fail> {
    let job = job_of(alloc, MEMBERS[(n % 6) as usize])?;
    let a = records(alloc, n.wrapping_mul(3))?;
    let b = records(alloc, n.wrapping_mul(3).wrapping_add(1))?;
    let c = records(alloc, n.wrapping_mul(3).wrapping_add(2))?;
    let captures: [&[Record]; 3] = [a.as_slice(), b.as_slice(), c.as_slice()];
    let files = files_of(alloc, captures, 0)?;
    let drawn = draw(n);
    let way = Way {
        shape: shape_of(
            one_to_three(drawn >> 33),
            one_to_three(drawn >> 36),
            one_to_three(drawn >> 39),
            one_to_three(drawn >> 42),
        ),
        seed: drawn,
        choices: 200,
        ..CALM
    };
    let whole = run(alloc, &job, &files, way)?;
    let some = Way {
        choices: ((drawn >> 45) % 200) as u32,
        to_the_end: false,
        ..way
    };
    let front = run(alloc, &job, &files, some)?;
    let report = report_of(alloc, &job, files)?;
    let report = report.as_str().as_bytes();
    Ok(
        whole.ended == Ended::Done
            && whole.settled
            && whole.written.as_slice() == report
            && report.starts_with(&front.written),
    )
}

#[test]
fn drawn_jobs_have_the_report_of_the_plain_program(rt: HostRuntime) -> Result<(), Fail> {
    let alloc = rt.alloc();
    for n in 0..200 {
        let is_same = is_as_central(alloc, n)?;
        assert!(rt; is_same, "job {n}");
    }
    Ok(())
}
