//! Expressions: a text is parsed to an `Expr`, or its first fault is told with its exact place, and
//! an `Expr` is evaluated over a summary (scope One) or over a group (scope Group).
//! Numbers are below 2^128; what has no such number is undefined. Evaluation takes no memory.
#![tactic(auto)]

mod evaluate;
mod expression;
mod law;
mod members;
mod names;
mod operation;
mod parser;
mod resolve;

pub use evaluate::{eval_group, eval_one};
pub use expression::{Expr, Term};
pub use law::one_answer;
pub use names::{Names, Scope};
pub use parser::parse;
pub use query_syntax::{ParseFault, QueryFault, QueryWhat, one_reading};

#[cfg(test)]
mod tests;
