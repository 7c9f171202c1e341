//! The names that an expression may use.

ghost use Rattle.std.specs.Prelude.{◌≡◌, ◌<◌, ◌^◌, ◌+◌, ◌∷◌, true, false, length, drop, MatchResult};
ghost use Rattle.query_lang.specs.Names.{word_in, place, is_named};

use ds_base::{NameList, Text};
use query_syntax::{ParseFault, QueryFault, QueryWhat};
use query_tokens::Word;

/// The names that an expression may use, each list in the order of its numbers.
#[derive(Drop)]
pub struct Names {
    pub vars: NameList,
    pub captures: NameList,
}

/// What an expression is evaluated over.
#[derive(Clone, Copy, Debug, PartialEq, Eq)]
pub enum Scope {
    /// A summary: variables, `time`, `capture` and `not`.
    One,
    /// A group: `not` and the other calls, whose arguments are variables and captures.
    Group,
}

/// The number that a word of the text has among the names, or the fault that it is none of them.
pub(crate) fn number_of(names: &NameList, text: &[u8], word: Word) -> Result<u32, ParseFault>
    requires { length names.now.items < 2 ^ 32 }
    ensures { MatchResult result
        (λ n. (n ≡ place names.now.items (word_in text.now word)) × (is_named names.now.items (word_in text.now word) ≡ true))
        (λ fault. (fault ≡ ParseFault.Bad (record { at = word.at; what = QueryWhat.Name })) × (is_named names.now.items (word_in text.now word) ≡ false)) }
{
    let wanted = word_in(text, word);
    for i in 0..names.len() {
        if name(names, i).as_str().as_bytes() == wanted {
            return Ok(i as u32);
        }
    }
    Err(barred(word.at))
}

/// The fault that the word at this place is not allowed.
pub(crate) fn barred(at: u32) -> ParseFault
    ensures { result ≡ ParseFault.Bad (record { at = at; what = QueryWhat.Name }) }
{
    ParseFault::Bad(QueryFault {
        at,
        what: QueryWhat::Name,
    })
}

// Name number `i`.
#[tactic(auto, using(ds_base::proofs::Places::drop_at))]
fn name(names: &NameList, i: u64) -> &Text
    requires { i < length names.now.items }
    ensures { drop i names.now.items ≡ result.now ∷ drop (i + 1) names.now.items }
{
    names.get(i)
}

// The bytes of a word of the text.
fn word_in(text: &[u8], word: Word) -> &[u8]
    ensures { result.now ≡ word_in text.now word }
{
    let start = text.len().min(word.at as usize);
    let end = text.len().min(start + word.len as usize);
    &text[start..end]
}
