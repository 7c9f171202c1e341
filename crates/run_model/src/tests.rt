//! Runs of the model, in turns that are drawn.
mod cases;
mod frames;
mod merge;
mod nodes;
mod run;

use cases::{EXAMPLES, Example, files_of, job_of, report_of, streams_of};
use frames::Kind::{Answers, Counts, Groups, Items};
use frames::{Kind, Shape, owner};
use node_frames::Frame;
use run::Run;
use std::alloc::Global;
use std::process::Abort;
use std::test::Fail;
use summary_spec::Job;

/// How many turns are drawn. Behind them each node has one without a limit, the parsers first.
const TURNS: u64 = 90;

// Whether all holds in runs of all shapes.
fn all_hold(alloc: Global, job: &Job, example: &Example) -> Result<bool, Fail> {
    let files = files_of(alloc, &example.1)?;
    let streams = streams_of(alloc, job, &files)?;
    let report = report_of(alloc, job, files)?;
    let mut hold = report.as_str().ends_with(example.2);
    for n in 0..27 {
        hold = hold && holds(alloc, job, &streams, report.as_str(), n)?;
    }
    Ok(hold)
}

// Whether all holds after each turn of the run of this number, which tells the shape and the turns, and at its end.
fn holds(
    alloc: Global,
    job: &Job,
    streams: &[Vec<Frame>],
    report: &str,
    n: u64,
) -> Result<bool, Fail> {
    let mut run = Run::new(alloc, Shape::numbered(n), streams)?;
    let mut drawn = n;
    for i in 0..TURNS + 10 {
        drawn = next(drawn);
        let last = i.saturating_sub(TURNS);
        let (kind, number, many) = if i < TURNS {
            (drawn >> 33, drawn >> 40, drawn >> 62)
        } else {
            (last / 3, last, u64::MAX)
        };
        let kind = kind_of(owner(kind, 4));
        if !run.turn(job, report, kind, owner(number, 3), many as usize)? {
            return Ok(false);
        }
    }
    Ok(run.is_done(report))
}

// The number behind this one in a row that looks drawn (Knuth's MMIX generator); its upper bits are taken.
fn next(drawn: u64) -> u64 {
    drawn
        .wrapping_mul(6_364_136_223_846_793_005)
        .wrapping_add(1_442_695_040_888_963_407)
}

fn kind_of(number: u32) -> Kind {
    match number {
        0 => Items,
        1 => Groups,
        2 => Answers,
        _ => Counts,
    }
}

#[test]
fn every_turn_keeps_the_promises_and_the_report_is_written(rt: HostRuntime) -> Result<(), Fail> {
    for (e, example) in EXAMPLES.iter().enumerate() {
        let job = job_of(rt.alloc(), example.0)?;
        let hold = all_hold(rt.alloc(), &job, example)?;
        assert!(rt; hold, "example {e}");
    }
    Ok(())
}
