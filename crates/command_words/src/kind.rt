//! What a word of the command line may be.

ghost use Rattle.std.specs.Prelude.{◌≡◌, ◌≤◌, ◌↔◌, ℕ, IsTrue, IfSome};
ghost use Rattle.command_words.specs.Kinds.{HasKind, IsNumber, IsRequired};

use crate::number::number;
use field_table::field;

/// What a word of the command line may be.
#[derive(Clone, Copy, Debug, PartialEq, Eq)]
pub(crate) enum WordKind {
    /// The text of a field.
    Field,
    /// A number from the first to the second, in 1 to 20 decimal digits.
    Number(u64, u64),
    /// The name of a file.
    File,
}

/// Whether the word may be one that a command or an option needs: not empty, and no option.
pub(crate) fn is_required(word: &str) -> bool
    ensures { IsTrue result ↔ IsRequired word.now }
{
    match word.as_bytes() {
        [] => false,
        [first, ..] => *first != b'-',
    }
}

/// Whether the word is of the kind.
pub(crate) fn has_kind(kind: WordKind, word: &str) -> bool
    ensures { IsTrue result ↔ HasKind kind word.now }
{
    match kind {
        WordKind::Field => is_field(word),
        WordKind::Number(least, most) => is_within(word, least, most),
        WordKind::File => true,
    }
}

fn is_field(word: &str) -> bool
    ensures { IsTrue result ↔ HasKind WordKind.Field word.now }
{
    match field(word) {
        Some(_) => true,
        None => false,
    }
}

fn is_within(word: &str, least: u64, most: u64) -> bool
    ensures { IsTrue result ↔ HasKind (WordKind.Number least most) word.now }
{
    match number_within(word, least, most) {
        Some(_) => true,
        None => false,
    }
}

/// The number from `least` to `most` that the word says. None for every other word.
pub(crate) fn number_within(word: &str, least: u64, most: u64) -> Option<u64>
    ensures said { IfSome result (λ n. IsNumber word.now n × (least ≤ n) × (n ≤ most)) }
    ensures only { (n : ℕ) → IsNumber word.now n → least ≤ n → n ≤ most → result ≡ Some n }
{
    let n = number(word)?;
    if n < u128::from(least) || n > u128::from(most) {
        return None;
    }
    Some(n as u64)
}
