//! Commands, with their values.

ghost use Rattle.std.specs.Prelude.{◌≡◌, ◌≤◌, ◌∷◌, ℕ, List, IfSome, IfNone, Option, option_map, take, map};
ghost use Rattle.command_words.specs.CommandTable.{command_word, plain_kinds, option_kind};
ghost use Rattle.command_words.specs.CommandLine.{Have, AtMostOne};
ghost use Rattle.command_words.specs.Words.{Asked, Accepts, Says, HasSizes, NumberOr, FieldOr};
ghost use Rattle.command_words.specs.Command.{asked_of};
ghost use Rattle.command_words.specs.Reading.{Stands, given_values, one_or_none};

use crate::kind::{WordKind, number_within};
use crate::reading::Read;
use crate::table::{MOST_OPTIONS, MOST_WORDS, Name, row_of};
use ds_base::HOUR;
use field_table::{FieldRef, field};

/// The port of VXLAN where none is given.
const VXLAN_PORT: u32 = 4789;

/// How many nodes a pipeline has of each kind, 1 to 16 each, and how many credits each of its links,
/// 1 to 1,024.
#[derive(Clone, Copy, Debug, PartialEq, Eq)]
pub struct Sizes {
    pub parsers: u32,
    pub groupers: u32,
    pub processors: u32,
    pub credits: u32,
}

/// What the words of the command line ask.
#[derive(Clone, Copy, Debug, PartialEq, Eq)]
pub enum Command<'a> {
    /// The report of one capture, its records grouped by a field.
    Count {
        /// The field by which records are grouped.
        field: FieldRef,
        /// How long a group lasts from its first record on, in nanoseconds, at most an hour.
        window: u64,
        /// The name of the capture's file.
        file: &'a str,
    },
    /// The stack of each packet's headers.
    Stack {
        /// The UDP port whose payload is VXLAN, from 1.
        port: u16,
        /// The field whose number is printed in place of the stack.
        field: Option<FieldRef>,
        /// The name of the capture's file.
        file: &'a str,
    },
    /// A job, read and printed again.
    Check {
        /// The name of the job's file.
        job: &'a str,
    },
    /// The whole report of a job over its captures.
    Central {
        /// The name of the job's file.
        job: &'a str,
    },
    /// The same report, by a pipeline.
    Run {
        /// The name of the job's file.
        job: &'a str,
        /// How large the pipeline is.
        sizes: Sizes,
    },
    /// The totals of a pipeline over a made sample.
    Sample {
        /// The number that the sample is made of.
        number: u64,
        /// How large the pipeline is.
        sizes: Sizes,
    },
    /// What the program can be asked.
    Help,
    /// The version of the program.
    Version,
}

/// The command that was read. None: a word is missing, or the value of an option.
pub(crate) fn command_read<'a>(command: Name, read: Read<'a>) -> Option<Command<'a>>
    ensures accepts { IfSome result (λ made. (words : List (List ℕ)) → Stands command read.entry words → Accepts (command_word command ∷ words) (asked_of made)) }
    ensures only { IfSome result (λ made. (words : List (List ℕ)) → Stands command read.entry words → (other : Asked) → Accepts (command_word command ∷ words) other → other ≡ asked_of made) }
    ensures none { IfNone result ((words : List (List ℕ)) → Stands command read.entry words → (other : Asked) → Accepts (command_word command ∷ words) other → ⊥) }
{
    if let Some(_) = read.waiting {
        return None;
    }
    if read.count != row_of(command).plain.len() {
        return None;
    }
    match command {
        Name::Count => count_of(read.plain),
        Name::Stack => stack_of(read.plain, read.values),
        Name::Check => Some(check_of(read.plain)),
        Name::Central => Some(central_of(read.plain)),
        Name::Run => run_of(read.plain, read.values),
        Name::Sample => sample_of(read.plain, read.values),
        Name::Help => Some(Command::Help),
        Name::Version => Some(Command::Version),
    }
}

/// What `count` asks by its words. None: one is not of its kind.
fn count_of<'a>(plain: [&'a str; MOST_WORDS]) -> Option<Command<'a>>
    ensures said { IfSome result (λ made. (values : ℕ → List (List ℕ)) → Says Name.Count (take 3 (map (λ w. w.now) plain.entry)) values (asked_of made)) }
    ensures only { IfSome result (λ made. (values : ℕ → List (List ℕ)) → (other : Asked) → Says Name.Count (take 3 (map (λ w. w.now) plain.entry)) values other → other ≡ asked_of made) }
    ensures none { IfNone result (Have (plain_kinds Name.Count) (take 3 (map (λ w. w.now) plain.entry)) → ⊥) }
{
    let field = field(plain[0])?;
    let window = number_within(plain[1], 0, HOUR)?;
    Some(Command::Count {
        field,
        window,
        file: plain[2],
    })
}

/// What `stack` asks by its word and its options. None: the value of one is not of its kind.
fn stack_of<'a>(
    plain: [&'a str; MOST_WORDS],
    values: [Option<&'a str>; MOST_OPTIONS],
) -> Option<Command<'a>>
    ensures said { IfSome result (λ made. Says Name.Stack (take 1 (map (λ w. w.now) plain.entry)) (given_values (map (λ v. option_map (λ w. w.now) v) values.entry)) (asked_of made)) }
    ensures only { IfSome result (λ made. (other : Asked) → Says Name.Stack (take 1 (map (λ w. w.now) plain.entry)) (given_values (map (λ v. option_map (λ w. w.now) v) values.entry)) other → other ≡ asked_of made) }
    ensures none { IfNone result (((k : ℕ) → AtMostOne (option_kind Name.Stack k) (given_values (map (λ v. option_map (λ w. w.now) v) values.entry) k)) → ⊥) }
{
    let Some(port) = number_or(values[0], 65_535, VXLAN_PORT) else {
        return None;
    };
    let Some(field) = shown_field(values[1]) else {
        return None;
    };
    Some(Command::Stack {
        port: port as u16,
        field,
        file: plain[0],
    })
}

/// What `check` asks by its word.
fn check_of<'a>(plain: [&'a str; MOST_WORDS]) -> Command<'a>
    ensures said { (values : ℕ → List (List ℕ)) → Says Name.Check (take 1 (map (λ w. w.now) plain.entry)) values (asked_of result) }
    ensures only { (values : ℕ → List (List ℕ)) → (other : Asked) → Says Name.Check (take 1 (map (λ w. w.now) plain.entry)) values other → other ≡ asked_of result }
{
    Command::Check { job: plain[0] }
}

/// What `central` asks by its word.
fn central_of<'a>(plain: [&'a str; MOST_WORDS]) -> Command<'a>
    ensures said { (values : ℕ → List (List ℕ)) → Says Name.Central (take 1 (map (λ w. w.now) plain.entry)) values (asked_of result) }
    ensures only { (values : ℕ → List (List ℕ)) → (other : Asked) → Says Name.Central (take 1 (map (λ w. w.now) plain.entry)) values other → other ≡ asked_of result }
{
    Command::Central { job: plain[0] }
}

/// What `run` asks by its word and its options. None: the value of one is not of its kind.
fn run_of<'a>(
    plain: [&'a str; MOST_WORDS],
    values: [Option<&'a str>; MOST_OPTIONS],
) -> Option<Command<'a>>
    ensures said { IfSome result (λ made. Says Name.Run (take 1 (map (λ w. w.now) plain.entry)) (given_values (map (λ v. option_map (λ w. w.now) v) values.entry)) (asked_of made)) }
    ensures only { IfSome result (λ made. (other : Asked) → Says Name.Run (take 1 (map (λ w. w.now) plain.entry)) (given_values (map (λ v. option_map (λ w. w.now) v) values.entry)) other → other ≡ asked_of made) }
    ensures none { IfNone result (((k : ℕ) → AtMostOne (option_kind Name.Run k) (given_values (map (λ v. option_map (λ w. w.now) v) values.entry) k)) → ⊥) }
{
    let sizes = sizes_of(values)?;
    Some(Command::Run {
        job: plain[0],
        sizes,
    })
}

/// What `sample` asks by its word and its options. None: one is not of its kind.
fn sample_of<'a>(
    plain: [&'a str; MOST_WORDS],
    values: [Option<&'a str>; MOST_OPTIONS],
) -> Option<Command<'a>>
    ensures said { IfSome result (λ made. Says Name.Sample (take 1 (map (λ w. w.now) plain.entry)) (given_values (map (λ v. option_map (λ w. w.now) v) values.entry)) (asked_of made)) }
    ensures only { IfSome result (λ made. (other : Asked) → Says Name.Sample (take 1 (map (λ w. w.now) plain.entry)) (given_values (map (λ v. option_map (λ w. w.now) v) values.entry)) other → other ≡ asked_of made) }
    ensures none { IfNone result (Have (plain_kinds Name.Sample) (take 1 (map (λ w. w.now) plain.entry)) → ((k : ℕ) → AtMostOne (option_kind Name.Sample k) (given_values (map (λ v. option_map (λ w. w.now) v) values.entry) k)) → ⊥) }
{
    let number = number_within(plain[0], 0, u64::MAX)?;
    let sizes = sizes_of(values)?;
    Some(Command::Sample { number, sizes })
}

/// The sizes that the options say, or the usual ones. None: the value of one is not of its kind.
fn sizes_of(values: [Option<&str>; MOST_OPTIONS]) -> Option<Sizes>
    ensures said { IfSome result (HasSizes (given_values (map (λ v. option_map (λ w. w.now) v) values.entry))) }
    ensures only { IfSome result (λ sizes. (other : Sizes) → HasSizes (given_values (map (λ v. option_map (λ w. w.now) v) values.entry)) other → other ≡ sizes) }
    ensures none { IfNone result (((k : ℕ) → AtMostOne (option_kind Name.Run k) (given_values (map (λ v. option_map (λ w. w.now) v) values.entry) k)) → ⊥) }
{
    let parsers = number_or(values[0], 16, 2)?;
    let groupers = number_or(values[1], 16, 2)?;
    let processors = number_or(values[2], 16, 2)?;
    let credits = number_or(values[3], 1024, 16)?;
    Some(Sizes {
        parsers,
        groupers,
        processors,
        credits,
    })
}

/// The number that is given, or what it is where none is given. None: what is given is no number
/// from 1 to `most`.
fn number_or(value: Option<&str>, most: u32, absent: u32) -> Option<u32>
    ensures said { IfSome result (NumberOr absent (one_or_none (option_map (λ w. w.now) value.entry))) }
    ensures only { IfSome result (λ n. (m : ℕ) → NumberOr absent (one_or_none (option_map (λ w. w.now) value.entry)) m → m ≡ n) }
    ensures none { IfNone result (AtMostOne (WordKind.Number 1 most) (one_or_none (option_map (λ w. w.now) value.entry)) → ⊥) }
    ensures most { absent ≤ most → IfSome result (λ n. n ≤ most) }
{
    match value {
        Some(word) => {
            let number = number_within(word, 1, u64::from(most))?;
            Some(number as u32)
        }
        None => Some(absent),
    }
}

/// The field that is to be shown, or none. None: what is given is no field.
fn shown_field(value: Option<&str>) -> Option<Option<FieldRef>>
    ensures said { IfSome result (FieldOr (one_or_none (option_map (λ w. w.now) value.entry))) }
    ensures only { IfSome result (λ f. (g : Option FieldRef) → FieldOr (one_or_none (option_map (λ w. w.now) value.entry)) g → g ≡ f) }
    ensures none { IfNone result (AtMostOne WordKind.Field (one_or_none (option_map (λ w. w.now) value.entry)) → ⊥) }
{
    match value {
        Some(word) => {
            let shown = field(word)?;
            Some(Some(shown))
        }
        None => Some(None),
    }
}
