//! The words of the command line, read.

ghost use Rattle.std.specs.Prelude.{◌≡◌, ◌∷◌, ◌++◌, ◌+◌, ◌<◌, ◌^◌, ℕ, List, IfSome, IfOk, IfErr, length, map, string_bytes};
ghost use Rattle.command_words.specs.CommandTable.{command_word, options_of};
ghost use Rattle.command_words.specs.Words.{Asked, Accepts, IsPlace};
ghost use Rattle.command_words.specs.Command.{asked_of};
ghost use Rattle.command_words.specs.Reading.{Stands, left_of};

use crate::command::{Command, command_read};
use crate::reading::{Read, nothing_read, step};
use crate::table::{Name, command_named};
use thiserror::Error;

/// Words that are refused.
#[derive(Clone, Copy, Debug, PartialEq, Eq, Error)]
#[error("word {place} may not stand there")]
pub struct Misplaced {
    /// The number, from 0, of the first word such that no accepted command line begins with the
    /// words up to it and with it; or the number of the words where all of them begin one.
    pub place: u32,
}

/// What the words of the command line ask, the command's word being word 0. It takes no memory.
pub fn read_words(words: &[String]) -> Result<Command<'_>, Misplaced>
    ensures accepts { IfOk result (λ command. Accepts (map string_bytes words.now) (asked_of command)) }
    ensures only { IfOk result (λ command. (other : Asked) → Accepts (map string_bytes words.now) other → other ≡ asked_of command) }
    ensures no_place { IfOk result (λ _. (place : ℕ) → IsPlace (map string_bytes words.now) place → ⊥) }
    ensures refused { IfErr result (λ bad. IsPlace (map string_bytes words.now) bad.place) }
    ensures one_place { IfErr result (λ bad. (place : ℕ) → IsPlace (map string_bytes words.now) place → place ≡ bad.place) }
{
    match words {
        [] => Err(Misplaced { place: 0 }),
        [first, rest @ ..] => match command_named(first.as_str()) {
            Some(command) => read_on(command, nothing_read(), rest, 1),
            None => Err(Misplaced { place: 0 }),
        },
    }
}

/// What the words ask that stand from this place on, behind a command's word and what was read. It
/// calls itself for each word that goes on. These are few, since each lowers what can still follow:
/// the words that are missing, and two for each option that is not given.
fn read_on<'a>(
    command: Name,
    read: Read<'a>,
    words: &'a [String],
    place: u32,
) -> Result<Command<'a>, Misplaced>
    requires known { IfSome read.waiting (λ k. k < length (options_of command)) }
    requires few { place + left_of read < 2 ^ 32 }
    ensures accepts { IfOk result (λ made. (front : List (List ℕ)) → Stands command read.entry front → Accepts (command_word command ∷ (front ++ map string_bytes words.now)) (asked_of made)) }
    ensures only { IfOk result (λ made. (front : List (List ℕ)) → Stands command read.entry front → (other : Asked) → Accepts (command_word command ∷ (front ++ map string_bytes words.now)) other → other ≡ asked_of made) }
    ensures refused { IfErr result (λ bad. (front : List (List ℕ)) → Stands command read.entry front → place ≡ length front + 1 → IsPlace (command_word command ∷ (front ++ map string_bytes words.now)) bad.place) }
{
    match words {
        [] => match command_read(command, read) {
            Some(made) => Ok(made),
            None => Err(Misplaced { place }),
        },
        [word, rest @ ..] => match step(command, read, word.as_str()) {
            Some(next) => read_on(command, next, rest, place + 1),
            None => Err(Misplaced { place }),
        },
    }
}
