//! The command `check`: the canonical text of a job, or its first fault.

use super::harness::{CALM, ends_ok, run, stops};
use run_faults::RunFault;
use std::alloc::{AllocError, Global};
use std::process::Abort;
use std::test::Fail;
use std::thread::Threads;

const CHECK: &str = "check a";

/// A job of three captures, with the name of the second one, the key, the window and a further member
/// given.
fn job(
    alloc: Global,
    second: &str,
    key: &str,
    window: &str,
    member: &str,
) -> Result<Vec<u8>, AllocError> {
    let mut text = Vec::new(alloc);
    for piece in [
        "{\"version\":1,\"captures\":[{\"name\":\"s1\",\"file\":\"a\"},{\"name\":\"",
        second,
        "\",\"file\":\"b\"},{\"name\":\"s3\",\"file\":\"c\"}],\n\"vars\":[{\"name\":\"id\",\"take\":[\"ipv4[-1].id\"]},{\"name\":\"ttl\",\"take\":[\"ipv4[-1].ttl\"]}],\n\"key\":[",
        key,
        "],",
        member,
        "\"window\":",
        window,
        ",\"skew\":0,\"query\":{\"kind\":\"loop\",\"hop\":\"ttl\"}}",
    ] {
        text.extend_from_slice(piece.as_bytes())?;
    }
    Ok(text)
}

pub(crate) fn plain_job(alloc: Global) -> Result<Vec<u8>, AllocError> {
    job(alloc, "s2", "\"id\"", "1000000", "")
}

/// What `check` writes of the plain job.
pub(crate) const CANONICAL: &str =
    "{\"captures\":[{\"file\":\"a\",\"name\":\"s1\"},{\"file\":\"b\",\"name\":\"s2\"},{\"file\":\"c\",\"name\":\"s3\"}],\"filter\":\"1\",\"key\":[\"id\"],\"profile\":false,\"query\":{\"hop\":\"ttl\",\"kind\":\"loop\"},\"skew\":0,\"vars\":[{\"name\":\"id\",\"take\":[\"ipv4[-1].id\"]},{\"name\":\"ttl\",\"take\":[\"ipv4[-1].ttl\"]}],\"version\":1,\"vxlan_port\":4789,\"window\":1000000}\n";

/// A job that is refused, with this behind `dshark: job: `.
fn refuses<R: Threads + Sync + Abort>(
    rt: &R,
    alloc: Global,
    bytes: &[u8],
    what: &str,
) -> Result<(), AllocError> {
    let left = run(rt, alloc, CHECK, bytes, CALM)?;
    let line = format!(in alloc; "dshark: job: {what}\n")?;
    assert!(rt; matches!(&left.fault, Some(RunFault::BadJob(_))));
    stops(rt, &left, 1, line.as_str(), b"");
    Ok(())
}

#[test]
fn a_job_is_printed_or_its_first_fault_is_told(rt: HostRuntime) -> Result<(), Fail> {
    let alloc = rt.alloc();
    let plain = plain_job(alloc)?;
    let left = run(&rt, alloc, CHECK, plain.as_slice(), CALM)?;
    ends_ok(&rt, &left, CANONICAL.as_bytes());
    refuses(&rt, alloc, b"{", "whole[0]: not json")?;
    refuses(&rt, alloc, b"{\"version\":1}", "captures[0]: missing")?;
    let long = "3600000000001";
    for (second, key, window, what) in [
        ("s2", "\"id\",\"x\"", long, "key[1]: unknown"),
        ("s2", "\"id\"", long, "window[0]: limit 3600000000001"),
        ("s1", "\"id\"", "1000000", "captures.name[1]: twice"),
    ] {
        let bytes = job(alloc, second, key, window, "")?;
        refuses(&rt, alloc, bytes.as_slice(), what)?;
    }
    for (filter, what) in [
        ("\"filter\":\"id $ 1\",", "filter[0]: expression 3 token"),
        ("\"filter\":\"1 +\",", "filter[0]: expression 3 syntax"),
        ("\"filter\":\"1<2<3\",", "filter[0]: expression 3 syntax"),
        ("\"filter\":\"nosuch\",", "filter[0]: expression 0 name"),
        (
            "\"filter\":\"(((((((((((((((((((((((((((((((((\",",
            "filter[0]: expression 32 deep",
        ),
    ] {
        let bytes = job(alloc, "s2", "\"id\"", "1000000", filter)?;
        refuses(&rt, alloc, bytes.as_slice(), what)?;
    }
    // A job of as many bytes as one may have, and of one or two more.
    let mut file = plain;
    file.resize(1_048_576, b' ')?;
    let most = run(&rt, alloc, CHECK, file.as_slice(), CALM)?;
    ends_ok(&rt, &most, CANONICAL.as_bytes());
    file.push(b' ')?;
    refuses(&rt, alloc, file.as_slice(), "whole[0]: limit 1048577")?;
    file.push(b' ')?;
    refuses(&rt, alloc, file.as_slice(), "whole[0]: limit 1048577")?;
    Ok(())
}
