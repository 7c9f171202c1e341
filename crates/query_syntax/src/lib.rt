//! The grammar of expressions: a text's tokens are read to a syntax tree, or the first fault of the
//! text is told with its exact place. The tree keeps its parentheses and the places of its words.
//! What names stand for, and where they may stand, is the concern of the crate above.
#![tactic(auto)]

mod call;
mod fault;
mod law;
mod machine;
mod rank;
mod stack;
mod syntax;
mod tree;

pub use fault::{ParseFault, QueryFault, QueryWhat};
pub use law::{one_outcome, one_reading};
pub use syntax::syntax_of;
pub use tree::{Atom, Syntax};
