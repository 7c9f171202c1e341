//! The command `count`: how a capture is grouped and counted.

use super::captures::Form::Micro;
use super::captures::Seen::{Arp, Bare};
use super::captures::{Capture, Record, file};
use super::harness::{CALM, ends_ok, run};
use std::test::Fail;

#[test]
fn a_capture_is_grouped_and_counted(rt: HostRuntime) -> Result<(), Fail> {
    let alloc = rt.alloc();
    let rows: [(&[Record], &str); 5] = [
        (
            &[(1, 0, Bare(7, 64))],
            "G 1000000000 c 0 key=7 n=1 ok\nC c records=1 unmatched=0 late=0 accepted=1 whole\nE groups=1 summaries=1\n",
        ),
        (
            &[(1, 0, Bare(7, 64)), (2, 0, Arp), (1, 500_000, Bare(8, 64))],
            "G 1000000000 c 0 key=7 n=1 ok\nG 1500000000 c 2 key=8 n=1 ok\nC c records=3 unmatched=1 late=0 accepted=2 whole\nE groups=2 summaries=2\n",
        ),
        (
            &[(4000, 0, Bare(7, 64)), (1, 0, Bare(8, 64))],
            "G 4000000000000 c 0 key=7 n=1 ok\nC c records=2 unmatched=0 late=1 accepted=1 whole\nE groups=1 summaries=1\n",
        ),
        (
            &[],
            "C c records=0 unmatched=0 late=0 accepted=0 whole\nE groups=0 summaries=0\n",
        ),
        (
            &[
                (1, 0, Bare(7, 64)),
                (1, 1000, Bare(7, 64)),
                (1, 1001, Bare(7, 64)),
            ],
            "G 1000000000 c 0 key=7 n=2 ok\nG 1001001000 c 2 key=7 n=1 ok\nC c records=3 unmatched=0 late=0 accepted=3 whole\nE groups=2 summaries=3\n",
        ),
    ];
    for (records, report) in rows {
        let bytes = file(alloc, (Micro, records))?;
        let left = run(
            &rt,
            alloc,
            "count ipv4[0].id 1000000 a",
            bytes.as_slice(),
            CALM,
        )?;
        ends_ok(&rt, &left, report.as_bytes());
    }
    // The last record is cut off.
    let two: Capture<'static> = (Micro, &[(1, 0, Bare(7, 64)), (2, 0, Bare(8, 64))]);
    let mut cut = file(alloc, two)?;
    cut.truncate(139);
    let left = run(
        &rt,
        alloc,
        "count ipv4[0].id 1000000 a",
        cut.as_slice(),
        CALM,
    )?;
    let report =
        "G 1000000000 c 0 key=7 n=1 ok\nC c records=1 unmatched=0 late=0 accepted=1 cut\nE groups=1 summaries=1\n";
    ends_ok(&rt, &left, report.as_bytes());
    Ok(())
}
