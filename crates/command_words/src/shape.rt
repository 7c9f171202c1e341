//! Words that are options, and words that are not.

ghost use Rattle.std.specs.Prelude.{◌≡◌, ◌≢◌, ◌++◌, ◌<◌, ℕ, List, [], ◌∷◌, IfSome, IfNone, MatchOption, length, map, slice_index_or};
ghost use Rattle.command_words.specs.Kinds.{IsRequired};
ghost use Rattle.command_words.specs.Reading.{HasShape, IsOption, NoOption};

use crate::kind::{WordKind, is_required};

/// What a word is where no option waits for its value.
#[derive(Clone, Copy)]
pub(crate) enum Shape<'a> {
    /// A word that a command may need.
    Plain,
    /// The option of this number; its value is the next word.
    Apart(usize),
    /// The option of this number, with its value.
    Joined(usize, &'a str),
}

/// What a word is, where these are the options. None: neither a needed word nor an option.
pub(crate) fn shape_of<'a>(options: &[(&str, WordKind)], word: &'a str) -> Option<Shape<'a>>
    ensures is { IfSome result (λ shape. HasShape (map (λ o. o.0.now) options.now) word.now shape) }
    ensures no_word { IfNone result (IsRequired word.now → ⊥) }
    ensures no_option { IfNone result ((k : ℕ) → k < length options.now → NoOption (slice_index_or (map (λ o. o.0.now) options.now) k []) word.now) }
{
    if is_required(word) {
        return Some(Shape::Plain);
    }
    option_of(options, word)
}

/// The option that a word is, with its value where the word has one.
fn option_of<'a>(options: &[(&str, WordKind)], word: &'a str) -> Option<Shape<'a>>
    ensures is { IfSome result (λ shape. HasShape (map (λ o. o.0.now) options.now) word.now shape) }
    ensures none { IfNone result ((k : ℕ) → k < length options.now → NoOption (slice_index_or (map (λ o. o.0.now) options.now) k []) word.now) }
{
    for (k, option) in options.iter().enumerate() {
        if let Some(shape) = one_option(k, option.0, word) {
            return Some(shape);
        }
    }
    None
}

/// Whether a word is the option of this number and name, with its value where the word has one.
fn one_option<'a>(k: usize, name: &str, word: &'a str) -> Option<Shape<'a>>
    ensures is { IfSome result (λ shape. IsOption k name.now word.now shape) }
    ensures none { IfNone result (NoOption name.now word.now) }
{
    let Some(rest) = behind(word, name) else {
        return None;
    };
    if rest.is_empty() {
        return Some(Shape::Apart(k));
    }
    match behind(rest, "=") {
        Some(value) => Some(Shape::Joined(k, value)),
        None => None,
    }
}

/// What stands in a word behind this front.
fn behind<'a>(word: &'a str, front: &str) -> Option<&'a str>
    ensures { MatchOption result ((rest : List ℕ) → word.now ≢ front.now ++ rest) (λ rest. word.now ≡ front.now ++ rest.now) }
{
    word.strip_prefix(front)
}
