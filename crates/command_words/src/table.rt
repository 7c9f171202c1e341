//! The table of commands.

ghost use Rattle.std.specs.Prelude.{◌≡◌, ◌≤◌, IfSome, map, length};
ghost use Rattle.command_words.specs.CommandTable.{command_word, plain_kinds, options_of};

use crate::kind::WordKind;
use ds_base::HOUR;

// Whoever adds a command names it here, gives it its word and its row, and the same row in
// specs/CommandTable; says in specs/Words what it asks, and gives it an arm in command.rt. Nothing
// else of the reader changes; the lemmas that go over all commands gain a line each.

/// The name of a command.
#[derive(Clone, Copy, Debug, PartialEq, Eq)]
pub(crate) enum Name {
    /// The report of one capture.
    Count,
    /// The stack of each packet's headers.
    Stack,
    /// A job, read and printed again.
    Check,
    /// The whole report of a job over its captures.
    Central,
    /// The same report, by a pipeline.
    Run,
    /// The totals of a pipeline over a made sample.
    Sample,
    /// What the program can be asked.
    Help,
    /// The version of the program.
    Version,
}

/// How many words a command needs at most.
pub(crate) const MOST_WORDS: usize = 3;

/// How many options a command has at most.
pub(crate) const MOST_OPTIONS: usize = 4;

/// The options of a command that runs a pipeline: how many nodes it has of each kind, and how many
/// credits each of its links.
const SIZE_OPTIONS: [(&str, WordKind); 4] = [
    ("--parsers", WordKind::Number(1, 16)),
    ("--groupers", WordKind::Number(1, 16)),
    ("--processors", WordKind::Number(1, 16)),
    ("--credits", WordKind::Number(1, 1024)),
];

/// What may stand behind the word of a command.
#[derive(Clone, Copy)]
pub(crate) struct Row {
    /// The words that the command needs, in order.
    pub plain: &'static [WordKind],
    /// The word of each option, and what its value may be.
    pub options: &'static [(&'static str, WordKind)],
}

/// The row of a command in the table of commands.
pub(crate) fn row_of(command: Name) -> Row
    ensures plain { result.plain.now ≡ plain_kinds command }
    ensures few { length result.plain.now ≤ MOST_WORDS }
    ensures options { map (λ o. o.0.now) result.options.now ≡ map (λ o. o.0) (options_of command) }
    ensures option_kinds { map (λ o. o.1) result.options.now ≡ map (λ o. o.1) (options_of command) }
    ensures few_options { length result.options.now ≤ MOST_OPTIONS }
    ensures as_many { length result.options.now ≡ length (options_of command) }
{
    match command {
        Name::Count => Row {
            plain: &[WordKind::Field, WordKind::Number(0, HOUR), WordKind::File],
            options: &[],
        },
        Name::Stack => Row {
            plain: &[WordKind::File],
            options: &[
                ("--port", WordKind::Number(1, 65_535)),
                ("--field", WordKind::Field),
            ],
        },
        Name::Check | Name::Central => Row {
            plain: &[WordKind::File],
            options: &[],
        },
        Name::Run => Row {
            plain: &[WordKind::File],
            options: &SIZE_OPTIONS,
        },
        Name::Sample => Row {
            plain: &[WordKind::Number(0, u64::MAX)],
            options: &SIZE_OPTIONS,
        },
        Name::Help | Name::Version => Row {
            plain: &[],
            options: &[],
        },
    }
}

/// The command of a word.
pub(crate) fn command_named(word: &str) -> Option<Name>
    ensures named { IfSome result (λ command. word.now ≡ command_word command) }
    ensures only { (command : Name) → word.now ≡ command_word command → result ≡ Some command }
{
    match word {
        "count" => Some(Name::Count),
        "stack" => Some(Name::Stack),
        "check" => Some(Name::Check),
        "central" => Some(Name::Central),
        "run" => Some(Name::Run),
        "sample" => Some(Name::Sample),
        "--help" => Some(Name::Help),
        "--version" => Some(Name::Version),
        _ => None,
    }
}
