//! The jobs of the tests, and the reports that they expect.

use std::alloc::{AllocError, Global};

pub(crate) const LOOP: &str = "{\"kind\":\"loop\",\"hop\":\"ttl\"}";

/// A job of the captures s1, s2, s3 in the files a, b, c, with this skew and query and these further
/// members.
pub(crate) fn job(
    alloc: Global,
    skew: &str,
    query: &str,
    members: &str,
) -> Result<Vec<u8>, AllocError> {
    let mut text = Vec::new(alloc);
    for piece in [
        "{\"version\":1,\"captures\":[{\"name\":\"s1\",\"file\":\"a\"},{\"name\":\"s2\",\"file\":\"b\"},{\"name\":\"s3\",\"file\":\"c\"}],\"vars\":[{\"name\":\"id\",\"take\":[\"ipv4[-1].id\"]},{\"name\":\"ttl\",\"take\":[\"ipv4[-1].ttl\"]}],\"key\":[\"id\"],\"window\":1000000,",
        members,
        "\"skew\":",
        skew,
        ",\"query\":",
        query,
        "}",
    ] {
        text.extend_from_slice(piece.as_bytes())?;
    }
    Ok(text)
}

/// How the records of a capture fared, as its line says it.
pub(crate) const NONE: &str = "records=0 unmatched=0 late=0 accepted=0 whole";

pub(crate) const ONE: &str = "records=1 unmatched=0 late=0 accepted=1 whole";

pub(crate) const TWO: &str = "records=2 unmatched=0 late=0 accepted=2 whole";

pub(crate) const THREE: &str = "records=3 unmatched=0 late=0 accepted=3 whole";

/// A report of these lines of groups and delays, these counts, and this end.
pub(crate) fn report(
    alloc: Global,
    lines: &str,
    counts: [&str; 3],
    end: &str,
) -> Result<Vec<u8>, AllocError> {
    let mut text = lines.as_bytes().to_vec(alloc)?;
    for (name, fared) in [
        ("C s1 ", counts[0]),
        ("C s2 ", counts[1]),
        ("C s3 ", counts[2]),
    ] {
        text.extend_from_slice(name.as_bytes())?;
        text.extend_from_slice(fared.as_bytes())?;
        text.extend_from_slice(b"\n")?;
    }
    text.extend_from_slice(b"E ")?;
    text.extend_from_slice(end.as_bytes())?;
    text.extend_from_slice(b"\n")?;
    Ok(text)
}

pub(crate) const PACKET_LINE: &str = "G 1000000000 s1 0 key=7 n=3 ok\n";

pub(crate) const END: &str = "groups=1 summaries=3";
