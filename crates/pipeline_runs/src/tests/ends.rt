//! Reads and writes that fail, malformed captures, and choosers that are unfair.
use super::captures::{Record, files_of, job_of, report_of};
use super::runs::{CALM, Ended, Way, run, shape_of};
use credit_link::NodeFault;
use ds_base::{FileList, Text};
use std::alloc::Global;
use std::process::Abort;
use std::test::Fail;
use summary_spec::Job;

/// The job: its three captures have 6, 1 and 6 records.
const MEMBERS: &str = r#""window":100,"skew":10,"query":{"kind":"loop","hop":"ttl"}}"#;

const CAPTURES: [&[Record]; 3] = [
    &[
        (1_000_000_100, 7, 64),
        (1_000_000_095, 8, 64),
        (1_000_000_080, 9, 64),
        (1_000_000_210, 7, 62),
        (1_000_000_400, 6, 62),
        (1_000_000_500, 5, 62),
    ],
    &[(1_000_000_100, 9, 64)],
    &[
        (1_000_000_150, 0, 0),
        (1_000_000_145, 8, 64),
        (1_000_000_200, 7, 61),
        (1_000_000_190, 7, 62),
        (1_000_000_201, 9, 64),
        (1_000_000_320, 8, 64),
    ],
];

fn inputs(alloc: Global) -> Result<(Job, FileList, Text), Fail> {
    let job = job_of(alloc, MEMBERS)?;
    let report = report_of(alloc, &job, files_of(alloc, CAPTURES, 0)?)?;
    Ok((job, files_of(alloc, CAPTURES, 0)?, report))
}

// The fault by which a run ended.
fn fault_of(ended: Ended) -> Option<NodeFault> {
    match ended {
        Ended::Met(at) => Some(at.fault),
        _ => None,
    }
}

#[test]
fn a_read_that_fails_is_told_and_a_front_was_written(rt: HostRuntime) -> Result<(), Fail> {
    let alloc = rt.alloc();
    let (job, files, report) = inputs(alloc)?;
    let report = report.as_str().as_bytes();
    // A file has 240 or 60 bytes, and a read behind the last one finds the end.
    for (capture, reads) in [(0u32, 5u32), (1, 2), (2, 5)] {
        for number in 0..reads {
            let way = Way {
                read: 60,
                failing_read: Some((capture, number)),
                ..CALM
            };
            let left = run(alloc, &job, &files, way)?;
            assert_eq!(rt; fault_of(left.ended), Some(NodeFault::Read { capture }));
            assert!(rt; report.starts_with(&left.written));
        }
    }
    Ok(())
}

#[test]
fn a_write_that_fails_is_told_and_a_front_was_written(rt: HostRuntime) -> Result<(), Fail> {
    let alloc = rt.alloc();
    let (job, files, report) = inputs(alloc)?;
    let report = report.as_str().as_bytes();
    let writes = u32::try_from(report.len() / 32).unwrap_or(0);
    for number in 0..writes {
        let way = Way {
            write: 32,
            failing_write: Some(number),
            ..CALM
        };
        let left = run(alloc, &job, &files, way)?;
        assert_eq!(rt; fault_of(left.ended), Some(NodeFault::Write));
        assert!(rt; report.starts_with(&left.written));
    }
    Ok(())
}

// Whether the run has the whole report at its end.
fn is_whole(alloc: Global, way: Way) -> Result<bool, Fail> {
    let (job, files, report) = inputs(alloc)?;
    let left = run(alloc, &job, &files, way)?;
    Ok(
        left.ended == Ended::Done
            && left.settled
            && left.written.as_slice() == report.as_str().as_bytes(),
    )
}

#[test]
fn a_run_ends_whoever_is_chosen(rt: HostRuntime) -> Result<(), Fail> {
    let alloc = rt.alloc();
    for node in 0..4u32 {
        for many in [1u32, 16] {
            let way = Way {
                shape: shape_of(many, many, many, 1),
                only: Some(node),
                choices: 3000,
                ..CALM
            };
            let ends = is_whole(alloc, way)?;
            assert!(rt; ends, "node {node} alone, of {many} of each");
        }
    }
    for backwards in [false, true] {
        let way = Way {
            shape: shape_of(3, 2, 3, 1),
            in_turn: true,
            backwards,
            choices: 3000,
            ..CALM
        };
        let ends = is_whole(alloc, way)?;
        assert!(rt; ends);
    }
    Ok(())
}
