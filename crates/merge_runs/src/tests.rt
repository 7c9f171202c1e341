//! What a merge writes, whatever comes first.

use crate::captures::Plain;
use crate::runs::{Way, run};
use crate::scripts::{Shape, scripts};
use credit_link::{NodeFault, Turn};
use std::process::Abort;
use std::test::Fail;

/// How many parsers and processors the runs have.
const SHAPES: [(u32, u32); 4] = [(1, 1), (2, 3), (3, 16), (16, 1)];

#[test]
fn the_lines_due_are_written_whatever_the_arrival(rt: HostRuntime) -> Result<(), Fail> {
    let alloc = rt.alloc();
    let plain = Plain::new(alloc)?;
    let all = Some(plain.report.as_str().len());
    for n in 0..16u32 {
        let (parsers, processors) = SHAPES[n as usize % 4];
        let shape = Shape {
            parsers,
            processors,
        };
        let way = Way {
            seed: u64::from(n),
            piece: 1 + n,
            failing: None,
        };
        let scripts = scripts(alloc, shape, way.seed)?;
        let end = run(alloc, &plain, parsers, scripts, way)?;
        assert_eq!(rt;
            (end.told, end.again),
            (Ok(Turn::Done), Ok(Turn::Done)),
            "run {n}"
        );
        assert_eq!(rt; end.written, all, "run {n}");
        assert!(rt; end.early > 0, "run {n}");
    }
    Ok(())
}

#[test]
fn a_failed_write_is_told_again(rt: HostRuntime) -> Result<(), Fail> {
    let alloc = rt.alloc();
    let plain = Plain::new(alloc)?;
    let shape = Shape {
        parsers: 2,
        processors: 3,
    };
    for write in 0..1000u32 {
        let way = Way {
            seed: 7,
            piece: 16,
            failing: Some(write),
        };
        let scripts = scripts(alloc, shape, way.seed)?;
        let end = run(alloc, &plain, shape.parsers, scripts, way)?;
        if end.told == Ok(Turn::Done) {
            assert!(rt; write > 30, "only {write} writes");
            return Ok(());
        }
        let fault = Err(NodeFault::Write);
        assert_eq!(rt; (end.told, end.again), (fault, fault), "write {write}");
        assert!(rt; end.written.is_some(), "write {write}");
    }
    Err(Fail::from("too many writes"))
}
