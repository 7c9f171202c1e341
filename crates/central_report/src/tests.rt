//! The whole report of a small job, beside the text that its rules give.
ghost use Rattle.std.specs.Prelude.{◌≡◌, ◌<◌, length, All, IfOk};
ghost use Rattle.window_grouper.specs.Sorted.{StampsDiffer};

use crate::{accepted_reportable, central_text, rows_are_profile};
use ds_base::{Counts, CountsList, Nums, Stamp, Summary, Text};
use packed_summaries::{LeanList, Packing};
use std::alloc::Global;
use std::process::Abort;
use std::test::Fail;
use summary_spec::Job;

// A job with three captures, of which loops are asked; its last member has no value here.
const JOB: &str =
    r#"{"version":1,"captures":[{"name":"s1","file":"a"},{"name":"s2","file":"b"},{"name":"s3","file":"c"}],"vars":[{"name":"id","take":["ipv4[-1].id"]},{"name":"ttl","take":["ipv4[-1].ttl"]}],"key":["id"],"window":1000000,"skew":0,"query":{"kind":"loop","hop":"ttl"},"profile":"#;

const GROUPS: &str = "G 1000000000 s1 2 key=7 n=3 loop s1 64 62\n\
    G 1000000000 s3 1 key=9 n=1 ok\n\
    G 2000000000 s2 4 key=8 n=2 ok\n";

const DELAYS: &str = "P s1 s2 count=1 sum=10000 least=10000 greatest=10000 classes=14:1\n\
    P s2 s1 count=1 sum=20000 least=20000 greatest=20000 classes=15:1\n\
    P s2 s3 count=1 sum=5000 least=5000 greatest=5000 classes=13:1\n";

const ENDS: &str = "C s1 records=4 unmatched=1 late=1 accepted=2 whole\n\
    C s2 records=5 unmatched=3 late=0 accepted=2 cut\n\
    C s3 records=2 unmatched=0 late=0 accepted=2 whole\n\
    E groups=3 summaries=6\n";

// A copy of a packet, by the capture, the time and the number of its record, its id and its hop limit.
fn seen(capture: u32, time: u64, number: u64, id: u128, ttl: u128) -> Summary
    ensures at { result.at ≡ record { time = time; capture = capture; number = number } }
    ensures values { length result.vals ≡ 2 }
{
    let at = Stamp {
        time,
        capture,
        number,
    };
    let mut key = Nums::new();
    key.push(id);
    let mut vals = Nums::new();
    vals.push(id);
    vals.push(ttl);
    Summary { at, key, vals }
}

// The accepted summaries, capture by capture. Packet 7 came back to the first capture; packet 9 was
// seen after its beginning and before its end.
fn summaries(alloc: Global) -> Result<LeanList, Fail>
    ensures differ { IfOk result (λ list. StampsDiffer list.items) }
    ensures known { IfOk result (λ list. All (λ s. (s.at.capture < 3) × (length s.vals ≡ 2)) list.items) }
    ensures few { IfOk result (λ list. length list.items ≡ 6) }
{
    let mut list = LeanList::new(alloc, packing(alloc)?);
    list.push(&seen(0, 1_000_000_000, 2, 7, 64))?;
    list.push(&seen(0, 1_000_030_000, 3, 7, 62))?;
    list.push(&seen(1, 1_000_010_000, 0, 7, 63))?;
    list.push(&seen(1, 2_000_000_000, 4, 8, 9))?;
    list.push(&seen(2, 1_000_000_000, 1, 9, 30))?;
    list.push(&seen(2, 2_000_005_000, 2, 8, 8))?;
    Ok(list)
}

// Of the job's two variables the first is the key, and neither is wide.
fn packing(alloc: Global) -> Result<Packing, Fail> {
    let mut packing = Packing::new(alloc);
    packing.add_variable(false)?;
    packing.add_variable(false)?;
    packing.add_to_key(0)?;
    Ok(packing)
}

// How the records of a capture fared.
fn fared(records: u64, unmatched: u64, late: u64, accepted: u64, cut: bool) -> Counts {
    Counts {
        records,
        unmatched,
        late,
        accepted,
        cut,
    }
}

fn counts(alloc: Global) -> Result<CountsList, Fail>
    ensures { IfOk result (λ list. length list.items ≡ 3) }
{
    let mut list = CountsList::new(alloc);
    list.push(fared(4, 1, 1, 2, false))?;
    list.push(fared(5, 3, 0, 2, true))?;
    list.push(fared(2, 0, 0, 2, false))?;
    Ok(list)
}

// The report of the job, whose last member has this value.
fn report(rt: &impl Abort, alloc: Global, profile: &str) -> Result<Text, Fail> {
    let text = format!(in alloc; "{JOB}{profile}}}")?;
    let job = Job::read(alloc, text.as_bytes()).ok().ok_or("refused")?;
    let list = summaries(alloc)?;
    let counts = counts(alloc)?;
    assert!(rt; job.names.captures.len() == 3);
    assert!(rt; job.names.vars.len() == 2);
    Ok(central_text(alloc, &job, &list, &counts)?)
}

#[test]
fn the_whole_report_is_written(rt: HostRuntime) -> Result<(), Fail> {
    accepted_reportable();
    rows_are_profile();
    for (profile, delays) in [("true", DELAYS), ("false", "")] {
        let text = report(&rt, rt.alloc(), profile)?;
        let expected = format!(in rt.alloc(); "{GROUPS}{delays}{ENDS}")?;
        assert_eq!(rt; text.as_str(), expected.as_str());
    }
    Ok(())
}
