//! The state of the reader of words.

ghost use Rattle.std.specs.Prelude.{◌≡◌, ◌++◌, ◌∷◌, [], ◌<◌, ◌≤◌, ◌+◌, ℕ, List, IfSome, IfNone, Option, None, Some, length, slice_set, slice_index_or};
ghost use Rattle.command_words.specs.Kinds.{HasKind, IsRequired};
ghost use Rattle.command_words.specs.CommandTable.{plain_kinds, options_of, option_kind};
ghost use Rattle.command_words.specs.Reading.{Stands, Becomes, Goes, shown_words, shown_values, left_of};

use crate::kind::{WordKind, has_kind, is_required};
use crate::shape::{Shape, shape_of};
use crate::table::{MOST_OPTIONS, MOST_WORDS, Name, row_of};

/// What the words behind the command's word have said so far.
#[derive(Clone, Copy)]
pub(crate) struct Read<'a> {
    /// The words that the command needs, as far as they were read; behind them empty ones.
    pub plain: [&'a str; MOST_WORDS],
    /// How many of these words were read.
    pub count: usize,
    /// The value of each option, by its number in the command's row. None: not given so far.
    pub values: [Option<&'a str>; MOST_OPTIONS],
    /// The number of the option whose value is the next word.
    pub waiting: Option<usize>,
}

/// Nothing was read.
pub(crate) fn nothing_read<'a>() -> Read<'a>
    ensures stands { (command : Name) → Stands command result [] }
    ensures left { left_of result < 100 }
    ensures waits { result.waiting ≡ None }
{
    Read {
        plain: [""; MOST_WORDS],
        count: 0,
        values: [None; MOST_OPTIONS],
        waiting: None,
    }
}

/// What is known with one word more. None: no accepted line has this word behind those before.
pub(crate) fn step<'a>(command: Name, read: Read<'a>, word: &'a str) -> Option<Read<'a>>
    requires { IfSome read.waiting (λ k. k < length (options_of command)) }
    ensures known { IfSome result (λ next. IfSome next.waiting (λ k. k < length (options_of command))) }
    ensures stands { IfSome result (λ next. (words : List (List ℕ)) → Stands command read.entry words → Stands command next (words ++ word.now ∷ [])) }
    ensures refused { IfNone result ((words : List (List ℕ)) → Stands command read.entry words → Goes command (words ++ word.now ∷ []) → ⊥) }
    ensures fewer { IfSome result (λ next. left_of next + 1 ≤ left_of read.entry) }
{
    if let Some(option) = read.waiting {
        if !is_required(word) {
            return None;
        }
        return take_value(command, read, option, word);
    }
    match shape_of(row_of(command).options, word) {
        Some(Shape::Plain) => take_word(command, read, word),
        Some(Shape::Apart(option)) => await_value(read, option),
        Some(Shape::Joined(option, value)) => take_value(command, read, option, value),
        None => None,
    }
}

/// Takes a word that the command needs. None: it needs no more, or the word is not of the kind.
fn take_word<'a>(command: Name, read: Read<'a>, word: &'a str) -> Option<Read<'a>>
    ensures more { IfSome result (λ next. read.entry.count < length (plain_kinds command)) }
    ensures kind { IfSome result (λ next. HasKind (slice_index_or (plain_kinds command) read.entry.count WordKind.File) word.now) }
    ensures becomes { IfSome result (λ next. Becomes next (read.entry.count + 1) (slice_set (shown_words read.entry) read.entry.count word.now) (shown_values read.entry) None) }
    ensures none { IfNone result (read.entry.count < length (plain_kinds command) → HasKind (slice_index_or (plain_kinds command) read.entry.count WordKind.File) word.now → ⊥) }
{
    let kinds = row_of(command).plain;
    if read.count >= kinds.len() || !has_kind(kinds[read.count], word) {
        return None;
    }
    let mut plain = read.plain;
    plain[read.count] = word;
    Some(Read {
        plain,
        count: read.count + 1,
        values: read.values,
        waiting: None,
    })
}

/// Lets an option wait for its value. None: it was given before.
fn await_value(read: Read<'_>, option: usize) -> Option<Read<'_>>
    requires { option < MOST_OPTIONS }
    ensures free { IfSome result (λ next. slice_index_or (shown_values read.entry) option None ≡ None) }
    ensures becomes { IfSome result (λ next. Becomes next read.entry.count (shown_words read.entry) (shown_values read.entry) (Some option)) }
    ensures none { IfNone result (slice_index_or (shown_values read.entry) option None ≡ None → ⊥) }
{
    match read.values[option] {
        Some(_) => None,
        None => Some(Read {
            plain: read.plain,
            count: read.count,
            values: read.values,
            waiting: Some(option),
        }),
    }
}

/// Takes the value of an option. None: it was given before, or the value is not of its kind.
fn take_value<'a>(command: Name, read: Read<'a>, option: usize, value: &'a str) -> Option<Read<'a>>
    requires { option < length (options_of command) }
    ensures free { IfSome result (λ next. slice_index_or (shown_values read.entry) option None ≡ None) }
    ensures kind { IfSome result (λ next. HasKind (option_kind command option) value.now) }
    ensures becomes { IfSome result (λ next. Becomes next read.entry.count (shown_words read.entry) (slice_set (shown_values read.entry) option (Some value.now)) None) }
    ensures none { IfNone result (slice_index_or (shown_values read.entry) option None ≡ None → HasKind (option_kind command option) value.now → ⊥) }
{
    let options = row_of(command).options;
    let kind = options[option].1;
    let given = read.values[option];
    if given.is_some() || !has_kind(kind, value) {
        return None;
    }
    let mut values = read.values;
    values[option] = Some(value);
    Some(Read {
        plain: read.plain,
        count: read.count,
        values,
        waiting: None,
    })
}
