//! The command `sample`: one number gives one line, whatever the pipeline is.

use super::captures::HEADER;
use super::harness::{CALM, ends_ok, run};
use std::process::Abort;
use std::test::Fail;

#[test]
fn a_sample_has_one_line_whatever_the_pipeline(rt: HostRuntime) -> Result<(), Fail> {
    let alloc = rt.alloc();
    // By a program of its own, from the definition of the samples.
    let known =
        "sample 7 packets=20000 records=59958 groups=20000 bytes=765933 fnv=710e54984f78c3ba\n";
    for line in [
        "sample 7",
        "sample 7 --parsers 1 --groupers=3 --processors 16 --credits 1",
    ] {
        let left = run(&rt, alloc, line, &HEADER, CALM)?;
        ends_ok(&rt, &left, known.as_bytes());
    }
    Ok(())
}
