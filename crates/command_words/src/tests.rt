//! Words that are accepted, and the places of words that are refused.

use crate::{Command, HELP, Misplaced, Sizes, VERSION_LINE, read_words};
use field_table::field;
use std::alloc::{AllocError, Global};
use std::test::Fail;

// Lists of words, one word a space, and the place where each is refused.
static REFUSED: [(&str, u32); 70] = [
    ("", 0),
    ("walk j", 0),
    ("-h", 0),
    ("Count ipv4[0].id 1 a", 0),
    ("--help=", 0),
    ("count", 1),
    ("count ipv4[0].nosuch 1 a", 1),
    ("count ipv4[0].id -1 a", 2),
    ("count ipv4[0].id x a", 2),
    ("count ipv4[0].id 3600000000001 a", 2),
    ("count ipv4[0].id 000000000000000000001 a", 2),
    ("count ipv4[0].id 1", 3),
    ("count ipv4[0].id 1 -a", 3),
    ("count ipv4[0].id 1 a b", 4),
    ("count ipv4[0].id 1 a --port 1", 4),
    ("check", 1),
    ("check --", 1),
    ("check j k", 2),
    ("check j --port=1", 2),
    ("central", 1),
    ("central -x", 1),
    ("central --port", 1),
    ("central j x", 2),
    ("stack", 1),
    ("stack -", 1),
    ("stack ", 1),
    ("stack --help", 1),
    ("stack a b", 2),
    ("stack a --", 2),
    ("stack a --portx", 2),
    ("stack a --por", 2),
    ("stack a --port=", 2),
    ("stack a --field=", 2),
    ("stack a --port=0", 2),
    ("stack a --port=65536", 2),
    ("stack a --port=-1", 2),
    ("stack a --field=ipv4[0]", 2),
    ("stack a --port", 3),
    ("stack a --port 0", 3),
    ("stack a --port 65536", 3),
    ("stack a --port -1", 3),
    ("stack a --port --field", 3),
    ("stack a --port ", 3),
    ("stack --port 2", 3),
    ("stack a --port 2 --port", 4),
    ("stack a --port 2 --port=3", 4),
    ("stack a --port=2 --field eth[0].dst --port", 5),
    ("--help x", 1),
    ("run", 1),
    ("run -j", 1),
    ("run j k", 2),
    ("run j --", 2),
    ("run j --parsers", 3),
    ("run j --parsers 17", 3),
    ("run j --parsers=17", 2),
    ("run j --parsers 2 --parsers", 4),
    ("run j --groupers=0", 2),
    ("run j --processors=", 2),
    ("run j --credits=1025", 2),
    ("run j --credits -1", 3),
    ("run j --port 1", 2),
    ("run j --workers=1", 2),
    ("run --credits 1", 3),
    ("run --credits 1 j --groupers 2 --credits=1", 6),
    ("sample", 1),
    ("sample seven", 1),
    ("sample 18446744073709551616", 1),
    ("sample 000000000000000000007", 1),
    ("sample 7 8", 2),
    ("sample 7 --processors 17", 3),
];

// The words of a line.
fn words_of(alloc: Global, line: &str) -> Result<Vec<String>, AllocError> {
    let mut words = Vec::new(alloc);
    for word in line.split(' ') {
        if line != "" {
            words.push(String::from_str(alloc, word)?)?;
        }
    }
    Ok(words)
}

#[test]
fn words_are_refused_at_their_first_wrong_one(rt: HostRuntime) -> Result<(), Fail> {
    for (line, place) in &REFUSED {
        let words = words_of(rt.alloc(), line)?;
        match read_words(&words) {
            Ok(_) => assert!(rt; false, "{line} is accepted"),
            Err(bad) => assert_eq!(rt; bad, Misplaced { place: *place }, "{line}"),
        }
    }
    Ok(())
}

// The sizes of these numbers of nodes and credits.
fn sizes(numbers: [u32; 4]) -> Sizes {
    let [parsers, groupers, processors, credits] = numbers;
    Sizes {
        parsers,
        groupers,
        processors,
        credits,
    }
}

#[test]
fn words_ask_for_a_command_with_its_values(rt: HostRuntime) -> Result<(), Fail> {
    let id = field("ipv4[0].id").ok_or("refused")?;
    let source = field("ipv4[-1].src").ok_or("refused")?;
    let count = |window, file| Command::Count {
        field: id,
        window,
        file,
    };
    let stack = |port, field| Command::Stack {
        port,
        field,
        file: "a",
    };
    let run = |numbers| Command::Run {
        job: "j",
        sizes: sizes(numbers),
    };
    let sample = |number, numbers| Command::Sample {
        number,
        sizes: sizes(numbers),
    };
    let accepted = [
        ("count ipv4[0].id 0 a", count(0, "a")),
        (
            "count ipv4[0].id 1000000 b.pcap",
            count(1_000_000, "b.pcap"),
        ),
        (
            "count ipv4[0].id 00000003600000000000 a",
            count(3_600_000_000_000, "a"),
        ),
        ("stack a", stack(4789, None)),
        ("stack --port 1 a", stack(1, None)),
        ("stack a --port=65535", stack(65_535, None)),
        ("stack --field=ipv4[-1].src a", stack(4789, Some(source))),
        (
            "stack --field ipv4[-1].src a --port=0002",
            stack(2, Some(source)),
        ),
        ("check j", Command::Check { job: "j" }),
        ("central j", Command::Central { job: "j" }),
        ("run j", run([2, 2, 2, 16])),
        ("run --credits=1 j --parsers 16", run([16, 2, 2, 1])),
        (
            "run --groupers 3 --processors=05 --credits 1024 --parsers=1 j",
            run([1, 3, 5, 1024]),
        ),
        ("sample 7", sample(7, [2, 2, 2, 16])),
        ("sample 00000000000000000000", sample(0, [2, 2, 2, 16])),
        (
            "sample --processors 16 18446744073709551615",
            sample(18_446_744_073_709_551_615, [2, 2, 16, 16]),
        ),
        ("--help", Command::Help),
        ("--version", Command::Version),
    ];
    for (line, command) in &accepted {
        let words = words_of(rt.alloc(), line)?;
        match read_words(&words) {
            Ok(asked) => assert!(rt; asked == *command, "{line}"),
            Err(bad) => assert!(rt; false, "{line} is refused at {}", bad.place),
        }
    }
    Ok(())
}

#[test]
fn the_text_for_people_fits_a_screen(rt: HostRuntime) {
    for line in HELP.lines() {
        assert!(rt; line.len() <= 80, "{line}");
    }
    assert!(rt; HELP.lines().count() <= 40);
    for command in [
        "count",
        "stack",
        "check",
        "central",
        "run",
        "sample",
        "--help",
        "--version",
    ] {
        assert!(rt; HELP.contains(command), "{command}");
    }
    assert_eq!(rt; VERSION_LINE, "dshark 0.1.0\n");
}
