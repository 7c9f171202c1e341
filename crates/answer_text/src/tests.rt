//! The lines of the worked report.

ghost use Rattle.std.specs.Prelude.{IsTrue};
ghost use Rattle.answer_text.specs.Lines.{IsNamedIn};

use crate::{answer_line, capture_line, end_line, profile_line};
use ds_base::{Answer, Counts, NameList, Nums, ProfileRow, Stamp, Text, Verdict};
use query_lang::Names;
use std::alloc::{AllocError, Global};
use std::test::Fail;

fn text(alloc: Global, of: &str) -> Result<Text, AllocError> {
    let mut text = Text::new(alloc);
    if text.push_str(of).is_err() {
        return Err(AllocError);
    }
    Ok(text)
}

fn names(alloc: Global) -> Result<Names, AllocError> {
    let mut captures = NameList::new(alloc);
    for name in ["s1", "s2", "s3"] {
        if captures.push(text(alloc, name)?).is_err() {
            return Err(AllocError);
        }
    }
    Ok(Names {
        vars: NameList::new(alloc),
        captures,
    })
}

fn answer(key: &[u128], members: u64, verdict: Verdict) -> Answer {
    let mut numbers = Nums::new();
    for n in key {
        if numbers.len() < Nums::MOST {
            numbers.push(*n);
        }
    }
    Answer {
        first: Stamp {
            time: 1_000_000_000,
            capture: 0,
            number: 2,
        },
        key: numbers,
        members,
        verdict,
    }
}

// Whether each capture in the verdict is one of so many.
fn is_named(captures: u64, verdict: &Verdict) -> bool
    ensures { IsTrue result → IsNamedIn captures verdict.now }
{
    match *verdict {
        Verdict::Loop { capture, .. } | Verdict::Dropped { capture } => u64::from(capture)
            < captures,
        _ => true,
    }
}

#[test]
fn each_verdict_has_its_words(rt: HostRuntime) -> Result<(), Fail> {
    let names = names(rt.alloc())?;
    let widest = u128::MAX;
    let looped = Verdict::Loop {
        capture: 1,
        high: widest,
        low: 62,
    };
    let cases: [(&[u128], u64, Verdict, &str); 8] = [
        (&[7], 3, Verdict::Fine, "key=7 n=3 ok"),
        (
            &[7],
            3,
            looped,
            "key=7 n=3 loop s2 340282366920938463463374607431768211455 62",
        ),
        (
            &[3],
            2,
            Verdict::Dropped { capture: 1 },
            "key=3 n=2 drop s2",
        ),
        (&[4], 2, Verdict::Path { at: 0 }, "key=4 n=2 path 0"),
        (
            &[7],
            4,
            Verdict::Rewrite { pair: 1, rule: 0 },
            "key=7 n=4 rewrite 1 0",
        ),
        (
            &[7, 8, widest],
            2,
            Verdict::Value { n: widest },
            "key=7,8,340282366920938463463374607431768211455 n=2 value 340282366920938463463374607431768211455",
        ),
        (&[7], 2, Verdict::Value { n: 12 }, "key=7 n=2 value 12"),
        (&[0], 1, Verdict::Undefined, "key=0 n=1 undefined"),
    ];
    for (key, members, verdict, rest) in cases {
        let answer = answer(key, members, verdict);
        assert!(rt; u64::from(answer.first.capture) < names.captures.len());
        assert!(rt; is_named(names.captures.len(), &answer.verdict));
        let Ok(line) = answer_line(rt.alloc(), &names, &answer) else {
            return Err(Fail::from(AllocError));
        };
        let expected = format!(in rt.alloc(); "G 1000000000 s1 2 {rest}\n")?;
        assert_eq!(rt; line.as_str(), expected.as_str());
    }
    Ok(())
}

#[test]
fn profiles_counts_and_the_end_have_their_lines(rt: HostRuntime) -> Result<(), Fail> {
    let names = names(rt.alloc())?;
    assert!(rt; names.captures.len() == 3);
    let mut row = ProfileRow {
        from: 0,
        to: 1,
        count: 1,
        sum: 10_000,
        least: 10_000,
        greatest: 10_000,
        classes: [0; 64],
    };
    row.classes[14] = 1;
    let one = profile_line(rt.alloc(), &names, &row);
    assert_eq!(rt;
        one.as_ref().ok().map(|line| line.as_str()),
        Some("P s1 s2 count=1 sum=10000 least=10000 greatest=10000 classes=14:1\n")
    );
    row.classes[0] = 2;
    row.classes[63] = 3;
    let three = profile_line(rt.alloc(), &names, &row);
    assert_eq!(rt;
        three.as_ref().ok().map(|line| line.as_str()),
        Some("P s1 s2 count=1 sum=10000 least=10000 greatest=10000 classes=0:2,14:1,63:3\n")
    );
    let mut counts = Counts {
        records: 3,
        unmatched: 1,
        late: 1,
        accepted: 1,
        cut: false,
    };
    let whole = capture_line(rt.alloc(), &names, 0, &counts);
    assert_eq!(rt;
        whole.as_ref().ok().map(|line| line.as_str()),
        Some("C s1 records=3 unmatched=1 late=1 accepted=1 whole\n")
    );
    counts.cut = true;
    let cut = capture_line(rt.alloc(), &names, 2, &counts);
    assert_eq!(rt;
        cut.as_ref().ok().map(|line| line.as_str()),
        Some("C s3 records=3 unmatched=1 late=1 accepted=1 cut\n")
    );
    let end = end_line(rt.alloc(), 4, 9);
    assert_eq!(rt;
        end.as_ref().ok().map(|line| line.as_str()),
        Some("E groups=4 summaries=9\n")
    );
    Ok(())
}
