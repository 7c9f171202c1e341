//! The tokens of an expression's text: numbers, words and signs, each with its place.
//! `tokens_of` splits a text into them, up to its end or to the first place where no token begins.
//! The classes of bytes of names and numbers stand here once, for the declaration of a job too.
#![tactic(auto)]

mod lexer;
mod number;
mod sign;
mod token;
mod word;

pub use lexer::{Lexing, Placed, tokens_of};
pub use number::{is_digit, is_number_byte};
pub use token::{Measure, Operator, Part, Pick, Token, Word};
pub use word::{begins_word, is_reserved, is_word_byte};
